//! The lines of one read: those of a datagram, or those that a read of a stream ended.
ghost use Rattle.std.specs.Prelude.{◌≡◌, ◌∷◌, ℕ, List, [], length, map};
ghost use Rattle.sd_model_outside.specs.Outside.{Object};
ghost use Rattle.sd_model_record.specs.Totals.{Total};
ghost use Rattle.sd_model_settings.specs.Entries.{Node};
ghost use Rattle.sd_model_text.specs.Lines.{lines};
ghost use Rattle.sd_proxy.specs.Forwarding.{AreSent, AreUnderWay, Forwards, NoneWaits, TakesLines, datagram_read};
ghost use Rattle.sd_proxy_desk.specs.Views.{totals_view};

use crate::routing::route;
use crate::waiting::Waiting;
use sd_line::Parts;
use sd_outside::Wire;
use sd_proxy_desk::{ProxyTotals, Route};
use sd_ring::Ring;

/// Counts a line, and has it wait for its owner, if it has one, or sends it there behind those that wait, where they leave it no room.
fn forward_line<L: Wire>(
    ring: &mut Ring,
    line: &[u8],
    up: u64,
    wires: &mut [L],
    waiting: &mut [Waiting],
    totals: &mut ProxyTotals,
)
    requires wires { length wires.old ≡ length ring.old }
    requires waiting { length waiting.old ≡ length ring.old }
    ensures ring { ring.new ≡ ring.old }
    ensures wires { length wires.new ≡ length wires.old }
    ensures waiting { length waiting.new ≡ length waiting.old }
    ensures takes { TakesLines ring.old up (line.now ∷ []) 0 waiting.old waiting.new (map L.seen wires.old) (map L.seen wires.new) (totals_view totals.old) (totals_view totals.new) }
{
    let goes = route(ring, line, up);
    totals.add_line(goes);
    if let Route::Node(node) = goes {
        let place = usize::from(node);
        waiting[place].take(line, &mut wires[place], totals);
    }
}

/// Counts each line of bytes, as those of a datagram stand in it, and has it wait for its owner, in order.
pub(crate) fn forward_lines<L: Wire>(
    ring: &mut Ring,
    bytes: &[u8],
    up: u64,
    wires: &mut [L],
    waiting: &mut [Waiting],
    totals: &mut ProxyTotals,
)
    requires wires { length wires.old ≡ length ring.old }
    requires waiting { length waiting.old ≡ length ring.old }
    ensures ring { ring.new ≡ ring.old }
    ensures wires { length wires.new ≡ length wires.old }
    ensures waiting { length waiting.new ≡ length waiting.old }
    ensures takes { TakesLines ring.old up (lines bytes.now) 0 waiting.old waiting.new (map L.seen wires.old) (map L.seen wires.new) (totals_view totals.old) (totals_view totals.new) }
{
    let mut lines = Parts::new(bytes);
    while let Some(line) = lines.next() {
        forward_line(ring, line, up, wires, waiting, totals);
    }
}

/// Sends the lines that wait for each node.
pub(crate) fn send_waiting<L: Wire>(
    wires: &mut [L],
    waiting: &mut [Waiting],
    totals: &mut ProxyTotals,
)
    requires { length waiting.old ≡ length wires.old }
    ensures wires { length wires.new ≡ length wires.old }
    ensures waiting { length waiting.new ≡ length waiting.old }
    ensures sends { (most packets long : ℕ) (nodes : List Node) (up : ℕ) (done : List (List ℕ)) (first : List Object) (t : List Total) → length nodes ≡ length wires.old
        → AreUnderWay most nodes up packets long done waiting.old first (map L.seen wires.old) t (totals_view totals.old)
        → AreSent most nodes up packets long done waiting.new first (map L.seen wires.new) t (totals_view totals.new) }
{
    for place in 0..wires.len() {
        waiting[place].send(&mut wires[place], totals);
    }
}

/// Sends each line of a datagram on the wire of its owner, in order, as many in one packet as have room, and counts the datagram and
/// what became of its lines. Where no line waits before, none waits behind it.
pub(crate) fn forward_datagram<L: Wire>(
    ring: &mut Ring,
    datagram: &[u8],
    up: u64,
    wires: &mut [L],
    waiting: &mut [Waiting],
    totals: &mut ProxyTotals,
)
    requires wires { length wires.old ≡ length ring.old }
    requires waiting { length waiting.old ≡ length ring.old }
    ensures ring { ring.new ≡ ring.old }
    ensures wires { length wires.new ≡ length wires.old }
    ensures waiting { length waiting.new ≡ length waiting.old }
    ensures none { (most : ℕ) → NoneWaits most waiting.old → NoneWaits most waiting.new }
    ensures forwards { (most : ℕ) → NoneWaits most waiting.old
        → Forwards most ring.old 1 (datagram_read datagram.now up ∷ []) (map L.seen wires.old) (map L.seen wires.new) (totals_view totals.old) (totals_view totals.new) }
{
    totals.add_packet();
    forward_lines(ring, datagram, up, wires, waiting, totals);
    send_waiting(wires, waiting, totals);
}
