//! The lines of a stream. Those that one read ends go together, as the lines of a datagram do.
ghost use Rattle.std.specs.Prelude.{◌≡◌, ◌<◌, ◌≤◌, ℕ, false, [], ◌∷◌, count_by, length, map, take};
ghost use Rattle.sd_model_proxy.specs.Relays.{is_long, lines_of_cut};
ghost use Rattle.sd_tcp.specs.Cut.{cut_view};
ghost use Rattle.sd_proxy_desk.specs.Views.{totals_view};
ghost use Rattle.sd_proxy.specs.Forwarding.{NoneWaits, TakesLines};
ghost use Rattle.sd_proxy.specs.Streaming.{SendsBytes, TakesBytes};

use crate::forwarding::{forward_lines, send_waiting};
use crate::waiting::Waiting;
use sd_outside::Wire;
use sd_proxy_desk::ProxyTotals;
use sd_ring::Ring;
use sd_tcp::{Cut, Cutter};

/// Takes a line of a stream: the lines of its bytes, or that it is too long.
fn take_cut<L: Wire>(
    ring: &mut Ring,
    line: Cut<'_>,
    up: u64,
    wires: &mut [L],
    waiting: &mut [Waiting],
    totals: &mut ProxyTotals,
)
    requires wires { length wires.old ≡ length ring.old }
    requires waiting { length waiting.old ≡ length ring.old }
    ensures ring { ring.new ≡ ring.old }
    ensures wires { length wires.new ≡ length wires.old }
    ensures waiting { length waiting.new ≡ length waiting.old }
    ensures takes { TakesLines ring.old up (lines_of_cut (cut_view line.entry)) (count_by is_long (cut_view line.entry ∷ [])) waiting.old waiting.new (map L.seen wires.old) (map L.seen wires.new) (totals_view totals.old) (totals_view totals.new) }
{
    match line {
        Cut::Line(bytes) => forward_lines(ring, bytes, up, wires, waiting, totals),
        Cut::Long => totals.add_long(),
    }
}

/// Takes the line that a cutter has ready, if it has one, and ends it.
fn take_ready<L: Wire>(
    ring: &mut Ring,
    up: u64,
    cutter: &mut Cutter,
    wires: &mut [L],
    waiting: &mut [Waiting],
    totals: &mut ProxyTotals,
)
    requires wires { length wires.old ≡ length ring.old }
    requires waiting { length waiting.old ≡ length ring.old }
    ensures ring { ring.new ≡ ring.old }
    ensures wires { length wires.new ≡ length wires.old }
    ensures waiting { length waiting.new ≡ length waiting.old }
    ensures none_ready { cutter.new.is_ready ≡ false }
    ensures takes { TakesBytes ring.old up [] cutter.old cutter.new waiting.old waiting.new (map L.seen wires.old) (map L.seen wires.new) (totals_view totals.old) (totals_view totals.new) }
{
    let Some(line) = cutter.ready() else {
        return;
    };
    take_cut(ring, line, up, wires, waiting, totals);
    cutter.finish();
}

/// Takes the bytes up to the first newline and with it, or all, answers their number, and takes the line that they end. A line that
/// stands whole among them isn't copied.
fn take_line<L: Wire>(
    ring: &mut Ring,
    bytes: &[u8],
    up: u64,
    cutter: &mut Cutter,
    wires: &mut [L],
    waiting: &mut [Waiting],
    totals: &mut ProxyTotals,
) -> usize
    requires none_ready { cutter.old.is_ready ≡ false }
    requires bytes { 0 < length bytes.now }
    requires wires { length wires.old ≡ length ring.old }
    requires waiting { length waiting.old ≡ length ring.old }
    ensures ring { ring.new ≡ ring.old }
    ensures wires { length wires.new ≡ length wires.old }
    ensures waiting { length waiting.new ≡ length waiting.old }
    ensures none_ready { cutter.new.is_ready ≡ false }
    ensures some { 0 < result }
    ensures within { result ≤ length bytes.now }
    ensures takes { TakesBytes ring.old up (take result bytes.now) cutter.old cutter.new waiting.old waiting.new (map L.seen wires.old) (map L.seen wires.new) (totals_view totals.old) (totals_view totals.new) }
{
    if let Some(line) = cutter.whole_line(bytes) {
        forward_lines(ring, line, up, wires, waiting, totals);
        return line.len() + 1;
    }
    let len = cutter.push(bytes);
    take_ready(ring, up, cutter, wires, waiting, totals);
    len
}

/// Takes all of the bytes of a read, and sends the lines that they end. Where no line waits before, none waits behind them.
pub(crate) fn forward_bytes<L: Wire>(
    ring: &mut Ring,
    bytes: &[u8],
    up: u64,
    cutter: &mut Cutter,
    wires: &mut [L],
    waiting: &mut [Waiting],
    totals: &mut ProxyTotals,
)
    requires none_ready { cutter.old.is_ready ≡ false }
    requires wires { length wires.old ≡ length ring.old }
    requires waiting { length waiting.old ≡ length ring.old }
    ensures ring { ring.new ≡ ring.old }
    ensures wires { length wires.new ≡ length wires.old }
    ensures waiting { length waiting.new ≡ length waiting.old }
    ensures none_ready { cutter.new.is_ready ≡ false }
    ensures none { (most : ℕ) → NoneWaits most waiting.old → NoneWaits most waiting.new }
    ensures sends { (most : ℕ) → NoneWaits most waiting.old
        → SendsBytes most ring.old up bytes.now cutter.old cutter.new (map L.seen wires.old) (map L.seen wires.new) (totals_view totals.old) (totals_view totals.new) }
{
    let mut rest = bytes;
    while !rest.is_empty() {
        let len = take_line(ring, rest, up, cutter, wires, waiting, totals);
        rest = &rest[len..];
    }
    send_waiting(wires, waiting, totals);
}
