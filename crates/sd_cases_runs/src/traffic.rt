//! What a server or a proxy of a case is given.
ghost use Rattle.std.specs.Prelude.{◌≡◌, ◌≤◌, All, IfOk, false, length, vec_len};
ghost use Rattle.sd_outside.specs.Turns.{most_datagram};
ghost use Rattle.sd_memory.specs.MemBeat.{seen_of as beat_seen};
ghost use Rattle.sd_memory.specs.MemDoor.{seen_of as door_seen};
ghost use Rattle.sd_memory.specs.MemSessions.{HasNoFaults};

use sd_case::{Refusal, bytes_of, number, push_number, set_number};
use sd_memory::{MemBeat, MemClock, MemDatagrams, MemDoor, MemProbe, MemSink, MemSource};
use std::alloc::Global;
use std::num::NonZeroUsize;

/// How many sources a run has.
const SOURCES: usize = 16;

/// How many bytes a datagram has at most.
const MOST_DATAGRAM: usize = 65_527;

/// For how many bytes of replies each session has room, where nothing else is said.
const ROOM: usize = 1 << 16;

/// For how many questions the probe has room.
const QUESTIONS: usize = 64;

/// A datagram that a source gives.
#[derive(Drop)]
struct Sent {
    source: usize,
    datagram: Vec<u8>,
}

/// A read or a write of a session that is to fail, by its number from 1.
#[derive(Clone, Copy)]
struct FailingCall {
    session: usize,
    call: u64,
}

/// The room for the replies of a session.
#[derive(Clone, Copy)]
struct ReplyRoom {
    session: usize,
    bytes: usize,
}

/// Datagrams, ticks, sessions, streams of lines and replies of nodes, and the moment of the clock.
#[derive(Drop)]
pub(crate) struct Traffic {
    sent: Vec<Sent>,
    ticks: Vec<u64>,
    sessions: Vec<Vec<u8>>,
    unread: Vec<FailingCall>,
    unwritten: Vec<FailingCall>,
    rooms: Vec<ReplyRoom>,
    streams: Vec<Vec<u8>>,
    replies: Vec<Vec<u8>>,
    now: u64,
}

/// The source that a word names by its number.
fn source_of(word: &str) -> Result<usize, Refusal> {
    let source = number(word)?;
    if source < SOURCES {
        Ok(source)
    } else {
        Err(Refusal::Malformed)
    }
}

/// Appends the bytes that a word stands for.
fn push_bytes(alloc: Global, texts: &mut Vec<Vec<u8>>, word: &str) -> Result<(), Refusal> {
    texts.push(bytes_of(alloc, word)?)?;
    Ok(())
}

/// Appends the call that `SESSION/CALL` stands for.
fn push_call(calls: &mut Vec<FailingCall>, value: &str) -> Result<(), Refusal> {
    let (session, call) = value.split_once('/').ok_or(Refusal::Malformed)?;
    let (session, call) = (number(session)?, number(call)?);
    calls.push(FailingCall { session, call })?;
    Ok(())
}

/// The calls of the session of a number.
fn calls_of(alloc: Global, calls: &[FailingCall], session: usize) -> Result<Vec<u64>, Refusal> {
    let mut numbers = Vec::new(alloc);
    for failing in calls {
        if failing.session == session {
            numbers.push(failing.call)?;
        }
    }
    Ok(numbers)
}

/// The two ends of a session that has these bytes and so much room, and whose reads and writes take so many bytes at most.
fn ends_of(
    alloc: Global,
    asked: Vec<u8>,
    room: usize,
    most: NonZeroUsize,
) -> Result<(MemSource, MemSink), Refusal>
    ensures { IfOk result HasNoFaults }
{
    let mut source = MemSource::of(asked);
    source.most = most.get();
    let mut replies = MemSink::open(alloc, room)?;
    replies.most = most.get();
    Ok((source, replies))
}

impl Traffic {
    /// None, at the moment 1000.
    pub(crate) fn none(alloc: Global) -> Traffic {
        Traffic {
            sent: Vec::new(alloc),
            ticks: Vec::new(alloc),
            sessions: Vec::new(alloc),
            unread: Vec::new(alloc),
            unwritten: Vec::new(alloc),
            rooms: Vec::new(alloc),
            streams: Vec::new(alloc),
            replies: Vec::new(alloc),
            now: 1000,
        }
    }

    /// Takes a part: a datagram `packet=SOURCE/TEXT`, `counted=SOURCE/COUNT/NAME` for the datagrams `NAME:I|c` with I from 1 on,
    /// `tick=SECOND`, `session=TEXT`, `unread=SESSION/READ` and `unwritten=SESSION/WRITE` for a read and a write that are to fail,
    /// `room=SESSION/BYTES` for its replies, `stream=TEXT` of lines, `reply=TEXT` of a node, or the moment `clock=SECOND`.
    ///
    /// # Errors
    ///
    /// `Malformed` where the part is of no form, and `OutOfMemory`.
    pub(crate) fn set(&mut self, alloc: Global, name: &str, value: &str) -> Result<(), Refusal> {
        match name {
            "packet" => self.push_sent(alloc, value),
            "counted" => self.push_counted(alloc, value),
            "tick" => push_number(&mut self.ticks, value),
            "session" => push_bytes(alloc, &mut self.sessions, value),
            "unread" => push_call(&mut self.unread, value),
            "unwritten" => push_call(&mut self.unwritten, value),
            "room" => self.push_room(value),
            "stream" => push_bytes(alloc, &mut self.streams, value),
            "reply" => push_bytes(alloc, &mut self.replies, value),
            "clock" => set_number(&mut self.now, value),
            _ => Err(Refusal::Malformed),
        }
    }

    /// Appends the datagram that `SOURCE/TEXT` stands for.
    fn push_sent(&mut self, alloc: Global, value: &str) -> Result<(), Refusal> {
        let (source, text) = value.split_once('/').ok_or(Refusal::Malformed)?;
        let source = source_of(source)?;
        let datagram = bytes_of(alloc, text)?;
        self.sent.push(Sent { source, datagram })?;
        Ok(())
    }

    /// Appends the room that `SESSION/BYTES` stands for.
    fn push_room(&mut self, value: &str) -> Result<(), Refusal> {
        let (session, bytes) = value.split_once('/').ok_or(Refusal::Malformed)?;
        let (session, bytes) = (number(session)?, number(bytes)?);
        self.rooms.push(ReplyRoom { session, bytes })?;
        Ok(())
    }

    /// Appends the datagrams that `SOURCE/COUNT/NAME` stands for.
    fn push_counted(&mut self, alloc: Global, value: &str) -> Result<(), Refusal> {
        let (source, rest) = value.split_once('/').ok_or(Refusal::Malformed)?;
        let (count, name) = rest.split_once('/').ok_or(Refusal::Malformed)?;
        let source = source_of(source)?;
        for i in 1..=number::<u32>(count)? {
            let datagram = format!(in alloc; "{name}:{i}|c")?.into_bytes();
            self.sent.push(Sent { source, datagram })?;
        }
        Ok(())
    }

    /// The datagrams of the source of a number.
    fn datagrams(&self, alloc: Global, source: usize) -> Result<Vec<Vec<u8>>, Refusal>
        ensures { IfOk result (λ packets. All (λ packet. vec_len packet ≤ most_datagram) packets.items) }
    {
        let mut packets = Vec::new(alloc);
        for sent in &self.sent {
            if sent.source == source {
                packets.push(sent.datagram.clone()?)?;
            }
        }
        if packets.iter().all(|packet| packet.len() <= MOST_DATAGRAM) {
            Ok(packets)
        } else {
            Err(Refusal::Condition)
        }
    }

    /// The sources of the run.
    pub(crate) fn sources(&self, alloc: Global) -> Result<Vec<MemDatagrams>, Refusal>
        ensures { IfOk result (λ sources. length sources.items ≡ 16) }
    {
        let mut sources = Vec::new(alloc);
        for source in 0..SOURCES {
            sources.push(MemDatagrams::of(self.datagrams(alloc, source)?))?;
        }
        Ok(sources)
    }

    /// The beat of the run.
    pub(crate) fn beat(&self) -> Result<MemBeat, Refusal>
        ensures { IfOk result (λ beat. (beat_seen beat).turns ≡ 0) }
    {
        Ok(MemBeat::of(self.ticks.clone()?))
    }

    /// The room for the replies of the session of a number.
    fn room_of(&self, session: usize) -> usize {
        match self.rooms.iter().find(|room| room.session == session) {
            Some(room) => room.bytes,
            None => ROOM,
        }
    }

    /// The two ends of the session of a number, whose reads and writes take so many bytes at most.
    fn ends(
        &self,
        alloc: Global,
        session: usize,
        most: NonZeroUsize,
    ) -> Result<(MemSource, MemSink), Refusal>
        ensures { IfOk result HasNoFaults }
    {
        let asked = self.sessions.get(session).ok_or(Refusal::Malformed)?;
        let (mut source, mut replies) = ends_of(
            alloc,
            asked.clone()?,
            self.room_of(session),
            most,
        )?;
        source.fail_call = calls_of(alloc, &self.unread, session)?;
        replies.fail_call = calls_of(alloc, &self.unwritten, session)?;
        Ok((source, replies))
    }

    /// The door of the run, the reads and writes of whose sessions take so many bytes at most.
    pub(crate) fn door(&self, alloc: Global, most: NonZeroUsize) -> Result<MemDoor, Refusal>
        ensures none_out { IfOk result (λ door. (door_seen door).is_out ≡ false) }
        ensures turns { IfOk result (λ door. (door_seen door).turns ≡ 0) }
    {
        let mut given = Vec::new(alloc);
        for session in 0..self.sessions.len() {
            given.push(self.ends(alloc, session, most)?)?;
        }
        Ok(MemDoor::open(given)?)
    }

    /// The probe of the run.
    pub(crate) fn probe(&self) -> Result<MemProbe, Refusal> {
        Ok(MemProbe::open(self.replies.clone()?, QUESTIONS)?)
    }

    /// The door of streams of the run, whose reads take so many bytes at most.
    pub(crate) fn streams(&self, alloc: Global, most: NonZeroUsize) -> Result<MemDoor, Refusal>
        ensures none_out { IfOk result (λ door. (door_seen door).is_out ≡ false) }
        ensures turns { IfOk result (λ door. (door_seen door).turns ≡ 0) }
    {
        let mut given = Vec::new(alloc);
        for stream in &self.streams {
            given.push(ends_of(alloc, stream.clone()?, ROOM, most)?)?;
        }
        Ok(MemDoor::open(given)?)
    }

    /// The clock of the run.
    pub(crate) fn clock(&self) -> MemClock {
        MemClock::of(self.now)
    }
}
