ghost use Rattle.std.specs.Prelude.{◌≡◌, ◌<◌, [], ◌∷◌, length, IsNone, IfSome, MatchOption, option_map};
ghost use Rattle.sd_model_text.specs.Lines.{lines};
ghost use Rattle.sd_line.specs.Lines.{with_line};
ghost use Rattle.sd_model_text.specs.Lists.{cut_at};

use crate::cut::{Cut, far_cut, trimmed};
use std::marker::Model;

/// What stands before the next newline without the white space at its end, and what stands behind it.
#[inline(always)]
fn next_line(bytes: &[u8]) -> Cut<'_>
    requires { 0 < length bytes.now }
    ensures lines { lines bytes.now ≡ with_line result.part.now (lines result.rest.now) }
    ensures shorter { length result.rest.now < length bytes.now }
{
    match far_cut(bytes, b'\n') {
        Some(line) => Cut {
            part: trimmed(line.part),
            rest: line.rest,
        },
        None => Cut {
            part: trimmed(bytes),
            rest: &[],
        },
    }
}

/// The next line of a datagram and what stands behind it, where there is one.
#[inline(always)]
pub(crate) fn next_part(bytes: &[u8]) -> Option<Cut<'_>>
    ensures { MatchOption result (lines bytes.now ≡ []) (λ c. lines bytes.now ≡ c.part.now ∷ lines c.rest.now) }
{
    let mut rest = bytes;
    while !rest.is_empty() {
        let line = next_line(rest);
        if !line.part.is_empty() {
            return Some(line);
        }
        rest = line.rest;
    }
    None
}

/// The lines of a datagram that are left, in order, as bytes: its parts between newlines, without the white space behind them,
/// and without the empty ones.
#[derive(Debug, Drop)]
pub struct Parts<'a> {
    rest: &'a [u8],
}

impl<'a> Model for Parts<'a> {
    ghost use Rattle.std.specs.Prelude.{ℕ, List};
    ghost use Rattle.sd_model_text.specs.Lines.{lines};

    ghost Value = { List (List ℕ) };

    ghost view = { λ p. lines p.rest.now };
}

impl<'a> Parts<'a> {
    /// The lines of a datagram.
    pub fn new(datagram: &'a [u8]) -> Parts<'a>
        ensures { result ≡ lines datagram.now }
    {
        Parts { rest: datagram }
    }

    /// The next line. None at the end.
    pub fn next(&mut self) -> Option<&'a [u8]>
        ensures end { IsNone result → (self.old ≡ []) × (self.new ≡ []) }
        ensures next { IfSome result (λ line. self.old ≡ line.now ∷ self.new) }
    {
        match next_part(self.rest) {
            Some(line) => {
                self.rest = line.rest;
                Some(line.part)
            }
            None => {
                self.rest = &[];
                None
            }
        }
    }
}

/// The name of a line: what stands before its first colon, where it has one.
pub fn name_before_colon(line: &[u8]) -> Option<&[u8]>
    ensures { option_map (λ name. name.now) result ≡ option_map (λ c. c.part) (cut_at 58 line.now) }
{
    let cut = far_cut(line, b':')?;
    Some(cut.part)
}
