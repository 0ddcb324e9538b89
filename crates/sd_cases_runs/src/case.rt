ghost use Rattle.std.specs.Prelude.{◌≡◌, length, IfOk};
ghost use Rattle.sd_memory.specs.MemBeat.{seen_of as beat_seen};
ghost use Rattle.sd_memory.specs.MemDoor.{seen_of as door_seen};
ghost use Rattle.sd_cases_runs.specs.Passing.{door_seen as passing_seen};
ghost use Rattle.sd_cases_runs.specs.Ready.{IsReady};

use crate::calls::{Failing, fail};
use crate::gate::{Holds, Order};
use crate::most::Most;
use crate::passing::{MemWorld, with_gate};
use crate::traffic::Traffic;
use log::sink::Discard;
use sd_case::{Refusal, bytes_of, number, set_number};
use sd_memory::{
    MemBackend, MemBeat, MemClock, MemDatagrams, MemDoor, MemProbe, MemSink, MemSource, MemWire,
};
use sd_outside::{Back, Backs, NoGate, PerBackend, read_full};
use sd_script::{Drill, MOST_PACKETS};
use sd_top::World;
use std::alloc::Global;
use std::num::NonZeroUsize;
use std::str;

/// The objects of a run in memory, which pass no gate yet.
pub(crate) type MemObjects = World<
    MemSource,
    MemSink,
    MemBackend,
    MemDatagrams,
    MemWire,
    MemDoor,
    MemBeat,
    NoGate,
    MemClock,
    MemProbe,
    MemDoor,
    Discard,
>;

/// How many wires a run has.
const WIRES: usize = 256;

/// For how many bytes an object has room, and in how many lists or packets.
#[derive(Clone, Copy)]
struct Room {
    bytes: usize,
    parts: usize,
}

/// What a run is given.
#[derive(Drop)]
pub(crate) struct Case {
    pub words: Vec<String>,
    pub settings: Vec<u8>,
    pub script: Vec<u8>,
    output_bytes: usize,
    graphite: Room,
    console: Room,
    wire: Room,
    pub most: Most,
    traffic: Traffic,
    failing: Vec<Failing>,
    pub holds: Holds,
}

impl Case {
    /// The case that is written as `WORDS : PARTS`. Without parts nothing is in the files, no call fails, and there
    /// is room for 1,024 bytes of output, 4,096 bytes in 4 lists of each backend, and 64 bytes in 4 packets of each wire.
    ///
    /// # Errors
    ///
    /// `Malformed` where a part is of no form, and `OutOfMemory`.
    pub(crate) fn of(alloc: Global, parts: &[&str]) -> Result<Case, Refusal> {
        let mut case = Case {
            words: Vec::new(alloc),
            settings: Vec::new(alloc),
            script: Vec::new(alloc),
            output_bytes: 1024,
            graphite: Room {
                bytes: 4096,
                parts: 4,
            },
            console: Room {
                bytes: 4096,
                parts: 4,
            },
            wire: Room {
                bytes: 64,
                parts: 4,
            },
            most: Most::all(NonZeroUsize::MAX),
            traffic: Traffic::none(alloc),
            failing: Vec::new(alloc),
            holds: Holds::none(alloc),
        };
        case.take_all(alloc, parts)?;
        Ok(case)
    }

    /// Takes words, and behind a colon parts.
    fn take_all(&mut self, alloc: Global, parts: &[&str]) -> Result<(), Refusal> {
        let mut are_words = true;
        for part in parts {
            if !are_words {
                self.set(alloc, part)?;
            } else if *part == ":" {
                are_words = false;
            } else {
                self.words.push(word_of(alloc, part)?)?;
            }
        }
        Ok(())
    }

    /// Takes a part: `settings=TEXT`, `script=TEXT`, `made=PACKETS` for the made script, `output=BYTES`,
    /// `graphite=BYTES/LISTS`, `console=BYTES/LISTS`, `wires=BYTES/PACKETS`, `most=BYTES` or `most=BYTES/OBJECT` for what reads and
    /// writes take, `fail=CALL:NUMBER`, `hold=PLACE.NUMBER/PLACE.NUMBER` and `note=PLACE,PLACE..` for the gate, or what a server or a
    /// proxy is given.
    fn set(&mut self, alloc: Global, part: &str) -> Result<(), Refusal> {
        match part.split_once('=') {
            Some(("settings", text)) => set_bytes(alloc, &mut self.settings, text),
            Some(("script", text)) => set_bytes(alloc, &mut self.script, text),
            Some(("made", packets)) => self.make_script(alloc, packets),
            Some(("output", bytes)) => set_number(&mut self.output_bytes, bytes),
            Some(("graphite", room)) => set_room(&mut self.graphite, room),
            Some(("console", room)) => set_room(&mut self.console, room),
            Some(("wires", room)) => set_room(&mut self.wire, room),
            Some(("most", text)) => self.most.set(text),
            Some(("fail", failing)) => self.push_failing(failing),
            Some(("hold", text)) => self.holds.hold(text),
            Some(("note", text)) => self.holds.note(text),
            Some((name, value)) => self.traffic.set(alloc, name, value),
            None => Err(Refusal::Malformed),
        }
    }

    /// Takes the made script of so many packets.
    fn make_script(&mut self, alloc: Global, packets: &str) -> Result<(), Refusal> {
        self.script = made_script(alloc, number(packets)?)?;
        Ok(())
    }

    /// Takes a call that is to fail.
    fn push_failing(&mut self, failing: &str) -> Result<(), Refusal> {
        self.failing.push(Failing::of(failing)?)?;
        Ok(())
    }

    /// The wires of the run.
    fn wires(&self, alloc: Global) -> Result<Vec<MemWire>, Refusal>
        ensures { IfOk result (λ wires. length wires.items ≡ 256) }
    {
        let mut wires = Vec::new(alloc);
        for _ in 0..WIRES {
            wires.push(MemWire::open(alloc, self.wire.bytes, self.wire.parts)?)?;
        }
        Ok(wires)
    }

    /// The settings file, the script and the output.
    fn files(&self, alloc: Global) -> Result<(MemSource, MemSource, MemSink), Refusal> {
        let mut settings = MemSource::of(self.settings.clone()?);
        settings.most = self.most.settings.get();
        let mut script = MemSource::of(self.script.clone()?);
        script.most = self.most.script.get();
        let mut output = MemSink::open(alloc, self.output_bytes)?;
        output.most = self.most.output.get();
        Ok((settings, script, output))
    }

    /// The backends.
    fn backs(&self, alloc: Global) -> Result<Backs<MemBackend>, Refusal> {
        let mut graphite = MemBackend::open(alloc, self.graphite.bytes, self.graphite.parts)?;
        graphite.most = self.most.graphite.get();
        let mut console = MemBackend::open(alloc, self.console.bytes, self.console.parts)?;
        console.most = self.most.console.get();
        Ok(PerBackend {
            graphite: Back {
                object: graphite,
                is_used: false,
            },
            console: Back {
                object: console,
                is_used: true,
            },
        })
    }

    /// The objects of the run, none of whose calls fails.
    fn objects(&self, alloc: Global) -> Result<MemObjects, Refusal>
        ensures { IfOk result (IsReady door_seen beat_seen door_seen) }
    {
        let beat = self.traffic.beat()?;
        let packets = self.traffic.sources(alloc)?;
        let wires = self.wires(alloc)?;
        let probe = self.traffic.probe()?;
        let (settings, script, output) = self.files(alloc)?;
        let door = self.traffic.door(alloc, self.most.sessions)?;
        let streams = self.traffic.streams(alloc, self.most.sessions)?;
        Ok(World {
            settings,
            script,
            output,
            backs: self.backs(alloc)?,
            packets,
            wires,
            door,
            beat,
            gate: NoGate,
            clock: self.traffic.clock(),
            probe,
            streams,
            log: Discard,
        })
    }

    /// Has the calls fail that are to.
    fn fail_all(&self, world: &mut MemObjects) -> Result<(), Refusal>
        requires { IsReady door_seen beat_seen door_seen world.old }
        ensures { IsReady door_seen beat_seen door_seen world.new }
    {
        for failing in &self.failing {
            fail(world, *failing)?;
        }
        Ok(())
    }

    /// The objects of the run, which pass a gate.
    pub(crate) fn world<'a>(&self, alloc: Global, gate: &'a Order) -> Result<MemWorld<'a>, Refusal>
        ensures { IfOk result (IsReady passing_seen beat_seen passing_seen) }
    {
        let mut objects = self.objects(alloc)?;
        self.fail_all(&mut objects)?;
        Ok(with_gate(alloc, objects, gate)?)
    }
}

/// Room for a packet of the made script with its record's line and what stands behind it, in bytes.
const ROOM_FOR_MADE: usize = 128;

/// The made script of so many packets.
fn made_script(alloc: Global, packets: u32) -> Result<Vec<u8>, Refusal> {
    if packets == 0 || packets > MOST_PACKETS {
        return Err(Refusal::Malformed);
    }
    let mut script = vec![in alloc; 0u8; packets as usize * ROOM_FOR_MADE]?;
    let Ok(len) = read_full(&mut Drill::new(packets), &mut script) else {
        return Err(Refusal::Malformed);
    };
    script.truncate(len);
    Ok(script)
}

/// Takes the room that a word writes as two numbers with a slash between them.
fn set_room(room: &mut Room, word: &str) -> Result<(), Refusal> {
    let (bytes, parts) = word.split_once('/').ok_or(Refusal::Malformed)?;
    room.bytes = number(bytes)?;
    room.parts = number(parts)?;
    Ok(())
}

/// Takes the bytes that a word stands for.
fn set_bytes(alloc: Global, place: &mut Vec<u8>, word: &str) -> Result<(), Refusal> {
    *place = bytes_of(alloc, word)?;
    Ok(())
}

/// The word of a command line that a word of a case stands for.
fn word_of(alloc: Global, word: &str) -> Result<String, Refusal> {
    let bytes = bytes_of(alloc, word)?;
    let Ok(text) = str::from_utf8(&bytes) else {
        return Err(Refusal::Malformed);
    };
    Ok(String::from_str(alloc, text)?)
}
