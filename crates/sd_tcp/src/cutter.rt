ghost use Rattle.std.specs.Prelude.{◌≡◌, ◌+◌, ◌<◌, ◌≤◌, true, false, [], ◌∷◌, ◌++◌, length, take, IfNone, IfOk, IfSome, MatchOption};
ghost use Rattle.sd_model_text.specs.Lines.{longest_datagram};
ghost use Rattle.sd_law_text.specs.Bytes.{has_byte};
ghost use Rattle.sd_model_stream.specs.Streams.{Line};
ghost use Rattle.sd_tcp.specs.Cutting.{CutsOn, longer, nothing_cut, through_newline};
ghost use Rattle.sd_tcp.specs.Cut.{IsShort, cut_view};

use crate::cut::{Cut, MOST_BYTES};
use crate::held::lengthen;
use crate::newline::{line_len, short_line};
use std::alloc::{AllocError, Global};
use std::marker::Model;

/// Cuts lines out of a stream that it is given piece by piece. Of the line that is begun it holds the bytes, at most 65,507.
/// Only `open` takes memory.
#[derive(Drop)]
pub struct Cutter {
    line: Vec<u8>,
    is_long: bool,
    is_ready: bool,
}

impl Model for Cutter {
    ghost use Rattle.std.specs.Prelude.{◌≤◌, vec_capacity, vec_len};
    ghost use Rattle.sd_model_text.specs.Lines.{longest_datagram};
    ghost use Rattle.sd_tcp.specs.Cutting.{Cutting};
    ghost use Rattle.sd_tcp.specs.Held.{line_held};

    ghost Value = { Cutting };

    ghost view = { λ c. record { line = line_held c.is_long c.line.items; is_ready = c.is_ready } };

    ghost invariant = { λ c. (vec_len c.line ≤ longest_datagram) × (longest_datagram ≤ vec_capacity c.line) };
}

impl Cutter {
    /// A cutter that has begun no line, with room for one.
    ///
    /// # Errors
    ///
    /// Where no memory is left for it.
    pub fn open(alloc: Global) -> Result<Cutter, AllocError>
        ensures { IfOk result (λ c. c ≡ nothing_cut) }
    {
        Ok(Cutter {
            line: Vec::with_capacity(alloc, MOST_BYTES)?,
            is_long: false,
            is_ready: false,
        })
    }

    // Puts bytes behind the line that is begun, which is then ready, or isn't.
    fn grow(&mut self, bytes: &[u8], is_ready: bool)
        ensures { self.new ≡ record { line = longer self.old.line bytes.now; is_ready = is_ready } }
    {
        lengthen(&mut self.line, &mut self.is_long, bytes);
        self.is_ready = is_ready;
    }

    /// Takes the bytes up to the first newline and with it, or all, and answers their number. Then the line that they end is
    /// ready, if they end one.
    pub fn push(&mut self, bytes: &[u8]) -> usize
        requires { self.old.is_ready ≡ false }
        ensures count { result ≡ through_newline bytes.now }
        ensures some { 0 < length bytes.now → 0 < result }
        ensures within { result ≤ length bytes.now }
        ensures ready { self.new.is_ready ≡ has_byte 10 bytes.now }
        ensures cut { CutsOn [] (take result bytes.now) self.old self.new }
    {
        match line_len(bytes) {
            Some(len) => {
                self.grow(&bytes[..len], true);
                len + 1
            }
            None => {
                self.grow(bytes, false);
                bytes.len()
            }
        }
    }

    /// The line that is ready. None where no newline came since the last one was ended.
    pub fn ready(&self) -> Option<Cut<'_>>
        ensures ready { MatchOption result (self.now.is_ready ≡ false) (λ line. (self.now.is_ready ≡ true) × (cut_view line ≡ self.now.line)) }
        ensures short { IfSome result IsShort }
    {
        if !self.is_ready {
            return None;
        }
        if self.is_long {
            return Some(Cut::Long);
        }
        Some(Cut::Line(&self.line))
    }

    /// Ends the line that is ready. The next one begins.
    pub fn finish(&mut self)
        requires { self.old.is_ready ≡ true }
        ensures begun { self.new ≡ nothing_cut }
        ensures cut { CutsOn (self.old.line ∷ []) [] self.old self.new }
    {
        self.reset();
    }

    /// Begins a stream: no line is begun, and none is ready.
    pub fn reset(&mut self)
        ensures { self.new ≡ nothing_cut }
    {
        self.line.clear();
        self.is_long = false;
        self.is_ready = false;
    }

    /// The first line of bytes, where no line is begun and a newline ends that one behind at most 65,507 of them. Who goes on
    /// behind its newline needn't push it, so that it isn't copied.
    pub fn whole_line<'b>(&self, bytes: &'b [u8]) -> Option<&'b [u8]>
        requires { self.now.is_ready ≡ false }
        ensures short { IfSome result (λ line. length line.now ≤ longest_datagram) }
        ensures inside { IfSome result (λ line. length line.now < length bytes.now) }
        ensures prefix { IfSome result (λ line. take (length line.now + 1) bytes.now ≡ line.now ++ 10 ∷ []) }
        ensures cut { IfSome result (λ line. CutsOn (Line line.now ∷ []) (line.now ++ 10 ∷ []) self.now self.now) }
        ensures none { IfNone result (self.now ≡ nothing_cut → has_byte 10 (take (longest_datagram + 1) bytes.now) ≡ false) }
    {
        if self.is_long || !self.line.is_empty() {
            return None;
        }
        short_line(bytes)
    }
}
