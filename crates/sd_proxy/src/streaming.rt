//! A stream, read by read.
ghost use Rattle.std.specs.Prelude.{◌≡◌, ◌<◌, ℕ, false, IfNone, IfSome, length, map};
ghost use Rattle.sd_live.specs.Live.{IsPassOf, publishes};
ghost use Rattle.sd_proxy_desk.specs.Shared.{IsSeatOf, number_of_seat};
ghost use Rattle.sd_proxy_desk.specs.Views.{totals_view};
ghost use Rattle.sd_proxy.specs.Forwarding.{NoneWaits};
ghost use Rattle.sd_proxy.specs.Looking.{pass_seen};
ghost use Rattle.sd_proxy.specs.Streaming.{CannotRead, IsStreamRoom, SendsRead, SendsStream};

use crate::lines::forward_bytes;
use crate::stream_room::StreamRoom;
use crate::waiting::Waiting;
use sd_outside::{Source, Wire};
use sd_proxy_desk::{ProxyHub, ProxyPass, ProxyTotals};
use sd_ring::Ring;
use std::sync::Wait;

// The most reads of a stream.
const MOST_READS: u64 = 1 << 62;

/// Reads once. The lines that the bytes end are sent among the nodes that one look finds up, and counted at the desk. None where no
/// byte came: the stream has ended, or failed.
fn forward_read<A: Source, L: Wire, R: Wait>(
    rt: &R,
    hub: &ProxyHub<'_>,
    own: &mut ProxyPass,
    ring: &mut Ring,
    source: &mut A,
    wires: &mut [L],
    waiting: &mut [Waiting],
    room: &mut StreamRoom,
) -> Option<ProxyTotals>
    requires pass { IsPassOf hub.now.cell.now own.old.pass }
    requires seat { IsSeatOf hub.now.desk.now own.old.seat }
    requires wires { length wires.old ≡ length ring.old }
    requires waiting { length waiting.old ≡ length ring.old }
    requires room { IsStreamRoom room.old }
    requires none_ready { room.old.cutter.is_ready ≡ false }
    ensures ring { ring.new ≡ ring.old }
    ensures pass { IsPassOf hub.now.cell.now own.new.pass × (publishes own.new.pass ≡ publishes own.old.pass) }
    ensures seat { IsSeatOf hub.now.desk.now own.new.seat × (number_of_seat own.new.seat ≡ number_of_seat own.old.seat) }
    ensures wires { length wires.new ≡ length wires.old }
    ensures waiting { length waiting.new ≡ length waiting.old }
    ensures none { (most : ℕ) → NoneWaits most waiting.old → NoneWaits most waiting.new }
    ensures room { IsStreamRoom room.new }
    ensures none_ready { room.new.cutter.is_ready ≡ false }
    ensures sends { IfSome result (λ came_to. (most : ℕ) → NoneWaits most waiting.old
        → SendsRead most ring.old (pass_seen own.old) (pass_seen own.new) (A.seen source.old) (A.seen source.new) room.old.cutter room.new.cutter (map L.seen wires.old) (map L.seen wires.new) (totals_view came_to)) }
    ensures ends { IfNone result (CannotRead (A.seen source.old) (A.seen source.new)) }
    ensures unchanged { IfNone result ((own.new ≡ own.old) × (wires.new ≡ wires.old)) }
{
    match source.read(&mut room.buf) {
        Ok(0) => None,
        Ok(len) => {
            let up = hub.cell.look(rt, &mut own.pass);
            let mut came_to = ProxyTotals::none();
            forward_bytes(
                ring,
                &room.buf[..len],
                up,
                &mut room.cutter,
                wires,
                waiting,
                &mut came_to,
            );
            hub.desk.count(rt, came_to, &mut own.seat);
            Some(came_to)
        }
        Err(_) => None,
    }
}

/// Reads a stream to its end, until it fails, or 2^62 reads were made, and answers what its lines came to. What follows the last
/// newline is no line.
pub(crate) fn forward_stream<A: Source, L: Wire, R: Wait>(
    rt: &R,
    hub: &ProxyHub<'_>,
    own: &mut ProxyPass,
    ring: &mut Ring,
    source: &mut A,
    wires: &mut [L],
    waiting: &mut [Waiting],
    room: &mut StreamRoom,
) -> ProxyTotals
    requires pass { IsPassOf hub.now.cell.now own.old.pass }
    requires seat { IsSeatOf hub.now.desk.now own.old.seat }
    requires wires { length wires.old ≡ length ring.old }
    requires waiting { length waiting.old ≡ length ring.old }
    requires room { IsStreamRoom room.old }
    ensures ring { ring.new ≡ ring.old }
    ensures pass { IsPassOf hub.now.cell.now own.new.pass × (publishes own.new.pass ≡ publishes own.old.pass) }
    ensures seat { IsSeatOf hub.now.desk.now own.new.seat × (number_of_seat own.new.seat ≡ number_of_seat own.old.seat) }
    ensures wires { length wires.new ≡ length wires.old }
    ensures waiting { length waiting.new ≡ length waiting.old }
    ensures none { (most : ℕ) → NoneWaits most waiting.old → NoneWaits most waiting.new }
    ensures room { IsStreamRoom room.new }
    ensures sends { (most : ℕ) → NoneWaits most waiting.old
        → SendsStream most ring.old (pass_seen own.old) (pass_seen own.new) (A.seen source.old) (A.seen source.new) (map L.seen wires.old) (map L.seen wires.new) (totals_view result) }
{
    room.cutter.reset();
    let mut totals = ProxyTotals::none();
    for _read in 0..MOST_READS {
        let Some(came_to) = forward_read(rt, hub, own, ring, source, wires, waiting, room) else {
            return totals;
        };
        totals = totals.and(came_to);
    }
    totals
}
