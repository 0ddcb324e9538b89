ghost use Rattle.std.specs.Prelude.{◌≡◌, ◌<◌, ◌≤◌, drop, length, slice_index, take, IsTrue, MatchBool, MatchOption, IfOk, OnOk, OnErr, ◌≢◌, ◌⊎◌};
ghost use Rattle.sd_model_text.specs.Lists.{Lacks};
ghost use Rattle.sd_model_outside.specs.Outside.{Rose, Used, put_back};
ghost use Rattle.sd_model_replay.specs.Script.{IsUndecided};
ghost use Rattle.sd_script.specs.Next.{IsWhole};
ghost use Rattle.sd_script.specs.Ahead.{held_in, Grows};
ghost use Rattle.sd_script.specs.Flaws.{flaw_of, HasBodyFlaw, HasLineFlaw};
ghost use Rattle.sd_script.specs.Found.{IsPrefix};
ghost use Rattle.sd_script.specs.Head.{body_view};

use crate::ahead::{Ahead, LINE};
use crate::fields::first_place;
use crate::flaw::Flaw;
use crate::head::{Body, Head, LONGEST, parse_line};
use sd_outside::{Failed, Source};

/// A record that stands at the start of bytes.
#[derive(Clone, Copy, Debug)]
pub(crate) struct Found {
    pub head: Head,
    /// How many bytes its first line has, with the newline.
    pub line: usize,
}

/// Whether the bytes of a body don't fit: no newline stands behind them, or one among them where none may.
fn is_misfit(bytes: &[u8], body: Body) -> bool
    requires { body.len < length bytes.now }
    ensures { MatchBool result ((slice_index bytes.now (body_view body).len ≢ 10) ⊎ (IsTrue (body_view body).is_line × ¬ Lacks 10 (take (body_view body).len bytes.now)))
        ((slice_index bytes.now body.len ≡ 10) × (IsTrue body.is_line → Lacks 10 (take body.len bytes.now))) }
{
    if bytes[body.len] != b'\n' {
        return true;
    }
    body.is_line && first_place(&bytes[..body.len], b'\n').is_some()
}

/// Reads on until a body from a place on is held or the script ends. Answers what is wrong with it, if anything.
fn body_flaw<R: Source>(
    ahead: &mut Ahead,
    script: &mut R,
    body: Body,
    from: usize,
) -> Result<Option<Flaw>, Failed>
    requires line { from ≤ LINE }
    requires inside { from ≤ length (held_in ahead.old) }
    requires most { body.most ≤ LONGEST }
    ensures flaw { IfOk result (λ flaw. MatchOption flaw (IsWhole (body_view body) (drop from (held_in ahead.new)))
        (λ f. HasBodyFlaw (body_view body) (drop from (held_in ahead.new)) (R.seen script.new).content (flaw_of f))) }
    ensures asked { OnErr result (((body_view body).len ≤ (body_view body).most) × (length (drop from (held_in ahead.new)) ≤ (body_view body).len)) }
    ensures grows { Grows (held_in ahead.old) (held_in ahead.new) }
    ensures left_stays { put_back (held_in ahead.new) (R.seen script.new).content
        ≡ put_back (held_in ahead.old) (R.seen script.old).content }
    ensures failed { OnErr result (Rose (R.seen script.old).faults (R.seen script.new).faults) }
    ensures steady { OnOk result ((R.seen script.new).faults ≡ (R.seen script.old).faults) }
    ensures used { Used (R.seen script.old) (R.seen script.new) }
{
    if body.len > body.most {
        return Ok(Some(Flaw::Length));
    }
    if !ahead.hold(script, from + body.len + 1)? {
        return Ok(Some(Flaw::Truncated));
    }
    if is_misfit(&ahead.bytes()[from..], body) {
        return Ok(Some(Flaw::Length));
    }
    Ok(None)
}

/// What is wrong where no newline stands among the first bytes.
fn flaw_of_no_line(bytes: &[u8]) -> Flaw
    requires { Lacks 10 (take LINE bytes.now) }
    ensures { HasLineFlaw bytes.now (flaw_of result) }
{
    if bytes.len() < LINE {
        return Flaw::Truncated;
    }
    Flaw::Word
}

/// The record that stands next, of one of so many receivers, or what is wrong with it. It stays ahead.
pub(crate) fn next_record<R: Source>(
    ahead: &mut Ahead,
    script: &mut R,
    receivers: u16,
) -> Result<Result<Found, Flaw>, Failed>
    ensures prefix { IfOk result (IsPrefix receivers (held_in ahead.new) (R.seen script.new).content) }
    ensures asked { OnErr result (IsUndecided receivers (held_in ahead.new)) }
    ensures left_stays { put_back (held_in ahead.new) (R.seen script.new).content
        ≡ put_back (held_in ahead.old) (R.seen script.old).content }
    ensures failed { OnErr result (Rose (R.seen script.old).faults (R.seen script.new).faults) }
    ensures steady { OnOk result ((R.seen script.new).faults ≡ (R.seen script.old).faults) }
    ensures used { Used (R.seen script.old) (R.seen script.new) }
{
    let Some(end) = ahead.hold_line(script)? else {
        return Ok(Err(flaw_of_no_line(ahead.bytes())));
    };
    let Some(head) = parse_line(&ahead.bytes()[..end], receivers) else {
        return Ok(Err(Flaw::Word));
    };
    let line = end + 1;
    let Some(body) = head.body() else {
        return Ok(Ok(Found { head, line }));
    };
    match body_flaw(ahead, script, body, line)? {
        Some(flaw) => Ok(Err(flaw)),
        None => Ok(Ok(Found { head, line })),
    }
}
