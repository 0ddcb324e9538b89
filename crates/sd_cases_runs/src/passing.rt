//! Objects in memory that pass a gate.
ghost use Rattle.std.specs.Prelude.{◌≡◌, length, IfOk};
ghost use Rattle.sd_memory.specs.MemBeat.{seen_of as beat_seen};
ghost use Rattle.sd_memory.specs.MemDoor.{seen_of as object_seen};
ghost use Rattle.sd_cases_runs.specs.Passing.{door_seen};
ghost use Rattle.sd_cases_runs.specs.Ready.{IsReady};

use crate::case::MemObjects;
use crate::gate::{MOST_WAITS, Order};
use log::sink::Discard;
use sd_memory::{
    MemBackend, MemBeat, MemClock, MemDatagrams, MemDoor, MemProbe, MemSink, MemSource, MemWire,
};
use sd_outside::{
    Address, Back, Backend, Backs, Clock, Datagrams, Door, Entry, Failed, Faulty, Gate, Next,
    OpenRefusal, Opens, PerBackend, Sink, Wire,
};
use sd_top::World;
use std::alloc::{AllocError, Global};
use std::thread;

/// A write to a backend, a send on a wire, and an answer of a source, of the clock and of a door.
const WRITE: u8 = 7;

const SEND: u8 = 8;

const ASK: u8 = 9;

const TIME: u8 = 10;

const ENTER: u8 = 11;

/// The gate, which others pass too.
#[derive(Drop)]
pub(crate) struct SharedGate<'a> {
    pub order: &'a Order,
}

impl Gate for SharedGate<'_> {
    fn pass(&self, place: u8) {
        self.order.pass(place);
    }
}

/// An object that passes a gate.
#[derive(Drop)]
pub(crate) struct Passing<'a, T> {
    pub object: T,
    pub gate: &'a Order,
}

impl<'a, T: Faulty> Faulty for Passing<'a, T> {
    ghost seen = { λ p. T.seen p.object };

    ghost faults_fit = { λ p. T.faults_fit p.object };
}

impl<'a, T: Opens> Opens for Passing<'a, T> {
    fn open_at(&mut self, at: &Address) -> Result<(), OpenRefusal> {
        self.object.open_at(at)
    }
}

/// A backend that passes the gate before each write.
pub(crate) type PassingBackend<'a> = Passing<'a, MemBackend>;

impl<'a> Sink for Passing<'a, MemBackend> {
    fn write(&mut self, bytes: &[u8]) -> Result<usize, Failed> {
        self.gate.pass(WRITE);
        self.object.write(bytes)
    }

    ghost number_fits = { λ _. tt };
}

impl<'a> Backend for Passing<'a, MemBackend> {
    fn begin(&mut self) -> Result<(), Failed> {
        self.object.begin()
    }

    fn finish(&mut self) -> Result<(), Failed> {
        self.object.finish()
    }
}

/// A wire that passes the gate before each send.
pub(crate) type PassingWire<'a> = Passing<'a, MemWire>;

impl<'a> Wire for Passing<'a, MemWire> {
    fn send(&mut self, packet: &[u8]) -> Result<(), Failed> {
        self.gate.pass(SEND);
        self.object.send(packet)
    }
}

/// A clock that passes the gate before each answer but the last.
pub(crate) type PassingClock<'a> = Passing<'a, MemClock>;

impl<'a> Clock for Passing<'a, MemClock> {
    ghost may_say = { λ c moment. ⟦<MemClock as Clock>⟧.may_say c.object moment };

    fn now(&self) -> u64 {
        self.gate.pass(TIME);
        self.object.now()
    }

    fn last(&self) -> u64 {
        self.object.last()
    }
}

/// A source that passes the gate before it answers, and has nothing for now while it is held up there.
#[derive(Drop)]
pub(crate) struct PassingSource<'a> {
    pub object: MemDatagrams,
    gate: &'a Order,
    turns: u64,
}

impl<'a> PassingSource<'a> {
    /// A source that took no turn.
    pub(crate) fn of(object: MemDatagrams, gate: &'a Order) -> PassingSource<'a> {
        PassingSource {
            object,
            gate,
            turns: 0,
        }
    }
}

impl<'a> Faulty for PassingSource<'a> {
    ghost use Rattle.std.proofs.Common.{arith};
    ghost use Rattle.sd_cases_runs.specs.Passing.{source_seen};

    ghost seen = { source_seen };

    ghost faults_fit = { λ s. Prim.omega arith };
}

impl<'a> Opens for PassingSource<'a> {
    fn open_at(&mut self, at: &Address) -> Result<(), OpenRefusal> {
        self.object.open_at(at)
    }
}

impl<'a> Datagrams for PassingSource<'a> {
    ghost use Rattle.std.proofs.Common.{arith};

    fn next(&mut self, buf: &mut [u8]) -> Next {
        if self.turns < MOST_WAITS && self.gate.holds_up(ASK) {
            self.turns += 1;
            thread::yield_now();
            return Next::Idle;
        }
        self.gate.come(ASK);
        let next = self.object.next(buf);
        if matches!(next, Next::Packet { .. }) {
            self.turns = self.turns.saturating_add(1);
        }
        next
    }

    ghost turns_fit = { λ s. Prim.omega arith };
}

/// A door that passes the gate before it answers, and has no session for now while it is held up there.
#[derive(Drop)]
pub(crate) struct PassingDoor<'a> {
    pub object: MemDoor,
    gate: &'a Order,
    turns: u64,
}

impl<'a> PassingDoor<'a> {
    /// A door that took no turn.
    pub(crate) fn of(object: MemDoor, gate: &'a Order) -> PassingDoor<'a>
        ensures is_out { (door_seen result).is_out ≡ (object_seen object).is_out }
        ensures turns { (door_seen result).turns ≡ 0 }
    {
        PassingDoor {
            object,
            gate,
            turns: 0,
        }
    }
}

impl<'a> Faulty for PassingDoor<'a> {
    ghost use Rattle.sd_cases_runs.specs.Passing.{door_seen};

    ghost seen = { door_seen };

    ghost faults_fit = { λ d. ⟦<MemDoor as Faulty>⟧.faults_fit d.object };
}

impl<'a> Opens for PassingDoor<'a> {
    fn open_at(&mut self, at: &Address) -> Result<(), OpenRefusal> {
        self.object.open_at(at)
    }
}

impl<'a> Door for PassingDoor<'a> {
    type Asking = MemSource;

    type Telling = MemSink;

    ghost use Rattle.std.proofs.Common.{arith};

    fn next_session(&mut self) -> Entry<MemSource, MemSink> {
        if self.turns < MOST_WAITS && self.gate.holds_up(ENTER) {
            self.turns += 1;
            thread::yield_now();
            return Entry::Idle;
        }
        self.gate.come(ENTER);
        let entry = self.object.next_session();
        if !matches!(entry, Entry::End) {
            self.turns = self.turns.saturating_add(1);
        }
        entry
    }

    fn leave(&mut self, asking: MemSource, telling: MemSink) {
        self.object.leave(asking, telling);
    }

    ghost turns_fit = { λ s. Prim.omega arith };
}

/// The objects of a run in memory, which pass a gate.
pub(crate) type MemWorld<'a> = World<
    MemSource,
    MemSink,
    PassingBackend<'a>,
    PassingSource<'a>,
    PassingWire<'a>,
    PassingDoor<'a>,
    MemBeat,
    SharedGate<'a>,
    PassingClock<'a>,
    MemProbe,
    PassingDoor<'a>,
    Discard,
>;

/// Sources that pass a gate.
fn passing_sources<'a>(
    alloc: Global,
    objects: Vec<MemDatagrams>,
    gate: &'a Order,
) -> Result<Vec<PassingSource<'a>>, AllocError>
    ensures { IfOk result (λ sources. length sources.items ≡ length objects.items) }
{
    let mut sources = Vec::new(alloc);
    for object in objects {
        sources.push(PassingSource::of(object, gate))?;
    }
    Ok(sources)
}

/// Wires that pass a gate.
fn passing_wires<'a>(
    alloc: Global,
    objects: Vec<MemWire>,
    gate: &'a Order,
) -> Result<Vec<PassingWire<'a>>, AllocError>
    ensures { IfOk result (λ wires. length wires.items ≡ length objects.items) }
{
    let mut wires = Vec::new(alloc);
    for object in objects {
        wires.push(Passing { object, gate })?;
    }
    Ok(wires)
}

/// A backend that passes a gate.
fn passing_back<'a>(back: Back<MemBackend>, gate: &'a Order) -> Back<PassingBackend<'a>> {
    let Back { object, is_used } = back;
    Back {
        object: Passing { object, gate },
        is_used,
    }
}

/// Backends that pass a gate.
fn passing_backs<'a>(backs: Backs<MemBackend>, gate: &'a Order) -> Backs<PassingBackend<'a>> {
    let PerBackend { graphite, console } = backs;
    PerBackend {
        graphite: passing_back(graphite, gate),
        console: passing_back(console, gate),
    }
}

/// Objects that pass a gate.
pub(crate) fn with_gate<'a>(
    alloc: Global,
    objects: MemObjects,
    gate: &'a Order,
) -> Result<MemWorld<'a>, AllocError>
    requires { IsReady object_seen beat_seen object_seen objects }
    ensures { IfOk result (IsReady door_seen beat_seen door_seen) }
{
    let World {
        settings,
        script,
        output,
        backs,
        packets,
        wires,
        door,
        beat,
        gate: _,
        clock,
        probe,
        streams,
        log: _,
    } = objects;
    let packets = passing_sources(alloc, packets, gate)?;
    let wires = passing_wires(alloc, wires, gate)?;
    Ok(World {
        settings,
        script,
        output,
        backs: passing_backs(backs, gate),
        packets,
        wires,
        door: PassingDoor::of(door, gate),
        beat,
        gate: SharedGate { order: gate },
        clock: Passing {
            object: clock,
            gate,
        },
        probe,
        streams: PassingDoor::of(streams, gate),
        log: Discard,
    })
}
