//! Sessions at their two ends.
ghost use Rattle.std.specs.Prelude.{◌≡◌, ℕ, ◌+◌, ◌<◌, ◌≤◌, true, List, [], ◌∷◌, ◌++◌, length, take, drop, MatchOption, IfNone, IfSome};
ghost use Rattle.sd_model_outside.specs.Outside.{HasRead};
ghost use Rattle.sd_model_serve.specs.Sessions.{ends_by_fault, HasNoNewline, too_many};
ghost use Rattle.sd_talk.specs.Reading.{CannotRead, Listens, RepliesTooLong, Stops};
ghost use Rattle.sd_talk.specs.Room.{IsLineRoom};
ghost use Rattle.sd_talk.specs.Sessions.{HoldsSession, end_of, visit_of};

use crate::answerer::{Answerer, LineAnswer};
use crate::room::LineRoom;
use log::Log;
use sd_outside::{Sink, Source, write_all};
use std::sync::Wait;

/// How a session ended.
#[derive(Clone, Copy, Debug, PartialEq, Eq)]
pub enum SessionEnd {
    /// By a line that asks for it.
    Quit,
    /// The source was at its end. A rest without a newline is no line.
    End,
    /// The source failed, and its count of faults rose.
    ReadFault,
    /// The output failed, and its count of faults rose.
    WriteFault,
    /// 1,024 bytes came without a newline, and that was replied.
    LineTooLong,
}

/// Where the first line of bytes ends, if a newline stands among them.
fn line_len(bytes: &[u8]) -> Option<usize>
    ensures { MatchOption result (HasNoNewline bytes.now) (λ n. (n < length bytes.now) × HasNoNewline (take n bytes.now) × (bytes.now ≡ take n bytes.now ++ 10 ∷ drop (n + 1) bytes.now)) }
{
    bytes.iter().position(|b| *b == b'\n')
}

/// Replies that a line is too long.
fn end_too_long<O: Sink>(sink: &mut O) -> SessionEnd
    ensures { RepliesTooLong result (O.seen sink.old) (O.seen sink.new) }
{
    match write_all(sink, b"ERROR line too long\n") {
        Ok(()) => SessionEnd::LineTooLong,
        Err(_) => SessionEnd::WriteFault,
    }
}

/// Reads on behind the bytes that are left.
fn read_on<A: Source>(source: &mut A, buf: &mut [u8], len: &mut usize) -> Option<SessionEnd>
    requires { len.old < length buf.old }
    ensures room { length buf.new ≡ length buf.old }
    ensures within { len.new ≤ length buf.new }
    ensures on { IfNone result ((bytes : List ℕ) × HasRead bytes (A.seen source.old) (A.seen source.new) × (take len.new buf.new ≡ take len.old buf.old ++ bytes)) }
    ensures ends { IfSome result (λ ended. (take len.new buf.new ≡ take len.old buf.old) × CannotRead ended (A.seen source.old) (A.seen source.new)) }
{
    match source.read(&mut buf[*len..]) {
        Ok(0) => Some(SessionEnd::End),
        Ok(count) => {
            *len += count;
            None
        }
        Err(_) => Some(SessionEnd::ReadFault),
    }
}

/// Drops the first line of the bytes that are left.
fn drop_line(buf: &mut [u8], len: &mut usize, end: usize)
    requires { (len.old ≤ length buf.old) × (end < len.old) }
    ensures room { length buf.new ≡ length buf.old }
    ensures within { len.new ≤ length buf.new }
    ensures left { take len.new buf.new ≡ drop (end + 1) (take len.old buf.old) }
{
    buf.copy_within(end + 1..*len, 0);
    *len -= end + 1;
}

/// One turn of a session: the first line that is left is answered, or more is read.
fn take_turn<S, V: Answerer<S>, A: Source, O: Sink, R: Wait + Log>(
    rt: &R,
    shared: &S,
    answerer: &mut V,
    room: &mut LineRoom,
    source: &mut A,
    sink: &mut O,
) -> Option<SessionEnd>
    requires ready { V.can_answer shared.now answerer.old }
    requires room { IsLineRoom room.old }
    requires len { room.old.len ≤ too_many }
    ensures ready { V.can_answer shared.now answerer.new }
    ensures room { IsLineRoom room.new }
    ensures len { room.new.len ≤ too_many }
    ensures on { IfNone result (Listens (V.talk shared.now) (V.has_answered shared.now) answerer.old answerer.new (take room.old.len room.old.bytes.items) (take room.new.len room.new.bytes.items) (A.seen source.old) (A.seen source.new) (O.seen sink.old) (O.seen sink.new)) }
    ensures ends { IfSome result (λ ended. Stops (V.talk shared.now) (V.has_answered shared.now) (end_of ended) answerer.old answerer.new (take room.old.len room.old.bytes.items) (A.seen source.old) (A.seen source.new) (O.seen sink.old) (O.seen sink.new)) }
    ensures cause { IfSome result (λ ended. ends_by_fault (end_of ended) ≡ true → 0 < (A.seen source.new).faults + (O.seen sink.new).faults) }
{
    let left = &room.bytes[..room.len];
    let Some(end) = line_len(left) else {
        if room.len == room.bytes.len() {
            return Some(end_too_long(sink));
        }
        return read_on(source, &mut room.bytes, &mut room.len);
    };
    match answerer.answer(rt, shared, &left[..end], sink) {
        LineAnswer::Whole => {
            drop_line(&mut room.bytes, &mut room.len, end);
            None
        }
        LineAnswer::Quit => Some(SessionEnd::Quit),
        LineAnswer::Cut => Some(SessionEnd::WriteFault),
    }
}

/// Holds a session by its two ends: its lines are read, answered one after another, until one asks for the end or is too long, or
/// an end has nothing left or failed.
pub fn session<S, V: Answerer<S>, A: Source, O: Sink, R: Wait + Log>(
    rt: &R,
    shared: &S,
    answerer: &mut V,
    room: &mut LineRoom,
    source: &mut A,
    sink: &mut O,
) -> SessionEnd
    requires ready { V.can_answer shared.now answerer.old }
    requires room { IsLineRoom room.old }
    ensures ready { V.can_answer shared.now answerer.new }
    ensures room { IsLineRoom room.new }
    ensures held { HoldsSession (V.talk shared.now) (V.has_answered shared.now) result (visit_of (A.seen source.old) (A.seen source.new) (O.seen sink.old) (O.seen sink.new) (ends_by_fault (end_of result))) answerer.old answerer.new }
    ensures cause { ends_by_fault (end_of result) ≡ true → 0 < (A.seen source.new).faults + (O.seen sink.new).faults }
{
    room.len = 0;
    for _ in rt.forever() {
        if let Some(ended) = take_turn(rt, shared, answerer, room, source, sink) {
            return ended;
        }
    }
    unreachable!()
}
