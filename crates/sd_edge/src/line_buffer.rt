ghost use Rattle.std.specs.Prelude.{◌≡◌, ◌+◌, ◌<◌, ◌≤◌, ◌↔◌, ◌++◌, [], take, drop, length, min, IsTrue, IfOk, vec_capacity, vec_len};
ghost use Rattle.sd_edge.specs.Lines.{after_piece, first_line, from_newline, going_on, held_of, none_held, with_bytes, with_rest};

use memchr::{memchr, memrchr};
use std::alloc::{AllocError, Global};
use std::marker::Model;

/// How many bytes of a client a buffer takes in at a time.
pub const PIECE: usize = 16_384;

/// What becomes of a line that is longer than what is kept of one until its newline comes.
#[derive(Clone, Copy, Debug, PartialEq, Eq)]
pub enum LongLines {
    /// It is given in pieces, each as long as what is kept or longer.
    Split,
    /// What is kept of it is given, or more, and then its newline; what is between is dropped. Where more is kept of a line than
    /// its reader takes for one, that reader sees that it is too long.
    Cut,
}

/// What a client has sent and nobody has taken yet, in room that is taken when it is made.
#[derive(Drop)]
pub struct LineBuffer {
    /// What a session has: whole lines, or a piece of a line that is split.
    ready: Vec<u8>,
    /// How many bytes of that were taken.
    taken: usize,
    /// The start of a line whose newline hasn't come.
    rest: Vec<u8>,
    /// How many bytes are kept of such a line.
    line: usize,
    is_cut: bool,
}

impl Model for LineBuffer {
    ghost use Rattle.std.specs.Prelude.{◌+◌, ◌≤◌, drop, vec_capacity, vec_len};
    ghost use Rattle.sd_edge.specs.Lines.{Held};

    ghost Value = { Held };

    ghost view = { λ b. record { ready = drop b.taken b.ready.items; rest = b.rest.items; line = b.line; is_cut = b.is_cut } };

    ghost invariant = { λ b. (b.taken ≤ vec_len b.ready) × (vec_len b.rest ≤ b.line) × (b.line ≤ vec_capacity b.rest) × (b.line + 16384 ≤ vec_capacity b.ready) };
}

/// Makes ready what is held of a line, and bytes behind it.
fn end_line(ready: &mut Vec<u8>, rest: &mut Vec<u8>, bytes: &[u8])
    requires room { vec_len ready.old + vec_len rest.old + length bytes.now ≤ vec_capacity ready.old }
    ensures ready { ready.new.items ≡ ready.old.items ++ (rest.old.items ++ bytes.now) }
    ensures none { rest.new.items ≡ [] }
    ensures len { vec_len ready.new ≡ vec_len ready.old + vec_len rest.old + length bytes.now }
    ensures none_len { vec_len rest.new ≡ 0 }
    ensures room { vec_capacity ready.old ≤ vec_capacity ready.new }
    ensures rest_room { vec_capacity rest.new ≡ vec_capacity rest.old }
{
    ready.extend_from_slice(rest).unwrap();
    ready.extend_from_slice(bytes).unwrap();
    rest.clear();
}

/// Puts bytes behind what is held of a line, and keeps so many of them all.
fn keep_start(rest: &mut Vec<u8>, line: usize, bytes: &[u8])
    requires few { vec_len rest.old ≤ line }
    requires room { line ≤ vec_capacity rest.old }
    ensures prefix { rest.new.items ≡ take line (rest.old.items ++ bytes.now) }
    ensures few { vec_len rest.new ≤ line }
    ensures room { line ≤ vec_capacity rest.new }
{
    let count = bytes.len().min(line - rest.len());
    rest.extend_from_slice(&bytes[..count]).unwrap();
}

/// Puts bytes without a newline behind what is held of a line, of which so many bytes are kept.
fn go_on(ready: &mut Vec<u8>, rest: &mut Vec<u8>, line: usize, is_cut: bool, bytes: &[u8])
    requires room { vec_len ready.old + vec_len rest.old + length bytes.now ≤ vec_capacity ready.old }
    requires few { vec_len rest.old ≤ line }
    requires rest_room { line ≤ vec_capacity rest.old }
    ensures held { held_of ready.new.items rest.new.items line is_cut ≡ with_rest (held_of ready.old.items rest.old.items line is_cut) bytes.now }
    ensures few { vec_len rest.new ≤ line }
    ensures room { vec_capacity ready.old ≤ vec_capacity ready.new }
    ensures rest_room { line ≤ vec_capacity rest.new }
{
    if is_cut {
        keep_start(rest, line, bytes);
    } else if bytes.len() < line - rest.len() {
        rest.extend_from_slice(bytes).unwrap();
    } else {
        end_line(ready, rest, bytes);
    }
}

/// Puts bytes behind what is held.
fn put_behind(ready: &mut Vec<u8>, rest: &mut Vec<u8>, line: usize, is_cut: bool, bytes: &[u8])
    requires room { vec_len ready.old + vec_len rest.old + length bytes.now ≤ vec_capacity ready.old }
    requires few { vec_len rest.old ≤ line }
    requires rest_room { line ≤ vec_capacity rest.old }
    ensures held { held_of ready.new.items rest.new.items line is_cut ≡ with_bytes (held_of ready.old.items rest.old.items line is_cut) bytes.now }
    ensures few { vec_len rest.new ≤ line }
    ensures room { vec_capacity ready.old ≤ vec_capacity ready.new }
    ensures rest_room { line ≤ vec_capacity rest.new }
{
    match memrchr(b'\n', bytes) {
        Some(last) => {
            end_line(ready, rest, &bytes[..last + 1]);
            go_on(ready, rest, line, is_cut, &bytes[last + 1..]);
        }
        None => go_on(ready, rest, line, is_cut, bytes),
    }
}

/// The bytes from the first newline on; none where there is no newline.
fn from_newline(bytes: &[u8]) -> &[u8]
    ensures rest { result.now ≡ from_newline bytes.now }
    ensures within { length result.now ≤ length bytes.now }
{
    match memchr(b'\n', bytes) {
        Some(at) => &bytes[at..],
        None => &[],
    }
}

/// How many bytes the first line is long, with its newline. Without one all bytes are that line.
fn first_line(bytes: &[u8]) -> usize
    ensures { result ≡ length (first_line bytes.now) }
{
    match memchr(b'\n', bytes) {
        Some(at) => at + 1,
        None => bytes.len(),
    }
}

impl LineBuffer {
    /// No bytes, with room for so many of a line.
    ///
    /// # Errors
    ///
    /// Where no memory is left for the room.
    pub fn open(alloc: Global, line: usize, long_lines: LongLines) -> Result<LineBuffer, AllocError>
        ensures { IfOk result (λ b. b ≡ none_held line long_lines) }
    {
        Ok(LineBuffer {
            ready: Vec::with_capacity(alloc, line.saturating_add(PIECE))?,
            taken: 0,
            rest: Vec::with_capacity(alloc, line)?,
            line,
            is_cut: long_lines == LongLines::Cut,
        })
    }

    /// Whether a session has bytes: whole lines, or a piece of a line that is split.
    pub fn is_ready(&self) -> bool
        ensures { IsTrue result ↔ (0 < length self.now.ready) }
    {
        self.taken < self.ready.len()
    }

    /// How many bytes the first line that a session has is long, with its newline. Without one all are that line.
    pub fn first_line(&self) -> usize
        ensures { result ≡ length (first_line self.now.ready) }
    {
        first_line(&self.ready[self.taken..])
    }

    /// Drops all bytes.
    pub fn clear(&mut self)
        ensures { self.new ≡ record self.old { ready = []; rest = [] } }
    {
        self.ready.clear();
        self.taken = 0;
        self.rest.clear();
    }

    /// The piece without what it has of a line of which as much is held as is kept, where that line is cut.
    fn going_on<'b>(&self, piece: &'b [u8]) -> &'b [u8]
        ensures rest { result.now ≡ going_on self.now piece.now }
        ensures within { length result.now ≤ length piece.now }
    {
        if self.is_cut && self.line <= self.rest.len() {
            from_newline(piece)
        } else {
            piece
        }
    }

    /// Takes in a piece behind what it has, where a session has none of that.
    pub fn take_in(&mut self, piece: &[u8])
        requires few { length piece.now ≤ PIECE }
        requires none { self.old.ready ≡ [] }
        ensures { self.new ≡ after_piece self.old piece.now }
    {
        let piece = self.going_on(piece);
        self.ready.clear();
        self.taken = 0;
        put_behind(
            &mut self.ready,
            &mut self.rest,
            self.line,
            self.is_cut,
            piece,
        );
    }

    /// Takes bytes that a session has to the start of those given, and answers their number.
    pub fn take(&mut self, buf: &mut [u8]) -> usize
        ensures count { result ≡ min (length self.old.ready) (length buf.old) }
        ensures bytes { take result buf.new ≡ take result self.old.ready }
        ensures others { drop result buf.new ≡ drop result buf.old }
        ensures left { self.new ≡ record self.old { ready = drop result self.old.ready } }
    {
        let left = &self.ready[self.taken..];
        let count = left.len().min(buf.len());
        buf[..count].copy_from_slice(&left[..count]);
        self.taken += count;
        count
    }
}
