ghost use Rattle.std.specs.Prelude.{◌≡◌, ◌<◌, ◌^◌, ℕ, false, IfNone, IfSome, length, map};
ghost use Rattle.sd_outside.specs.Turns.{raised};
ghost use Rattle.sd_model_outside.specs.Uses.{IsSpent};
ghost use Rattle.sd_live.specs.Live.{IsPassOf, publishes};
ghost use Rattle.sd_proxy_desk.specs.Shared.{IsSeatOf, number_of_seat};
ghost use Rattle.sd_proxy_desk.specs.Views.{totals_view};
ghost use Rattle.sd_proxy.specs.Forwarding.{NoneWaits};
ghost use Rattle.sd_proxy.specs.Looking.{pass_seen};
ghost use Rattle.sd_proxy.specs.Proxying.{LinesByLooks, relay_seen};
ghost use Rattle.sd_proxy.specs.Streaming.{IsStreamRoom, SendsStreams};

use crate::lined::Lined;
use crate::proxying::MOST_TURNS;
use crate::stream_room::StreamRoom;
use crate::streaming::forward_stream;
use crate::waiting::Waiting;
use sd_outside::{Door, DoorEnd, Entry, Wire};
use sd_proxy_desk::{ProxyHub, ProxyPass, ProxyTotals};
use sd_ring::Ring;
use std::sync::Wait;

/// Asks the door once. A session that it gives is read as a stream and given back. Answers what its lines came to; none where the door
/// has nothing left.
fn serve_next<E: Door, L: Wire, R: Wait>(
    rt: &R,
    hub: &ProxyHub<'_>,
    own: &mut ProxyPass,
    ring: &mut Ring,
    door: &mut E,
    wires: &mut [L],
    waiting: &mut [Waiting],
    room: &mut StreamRoom,
) -> Option<ProxyTotals>
    requires pass { IsPassOf hub.now.cell.now own.old.pass }
    requires seat { IsSeatOf hub.now.desk.now own.old.seat }
    requires wires { length wires.old ≡ length ring.old }
    requires waiting { length waiting.old ≡ length ring.old }
    requires room { IsStreamRoom room.old }
    requires none_out { (E.seen door.old).is_out ≡ false }
    requires few { (E.seen door.old).turns < 2 ^ 63 }
    ensures ring { ring.new ≡ ring.old }
    ensures pass { IsPassOf hub.now.cell.now own.new.pass × (publishes own.new.pass ≡ publishes own.old.pass) }
    ensures seat { IsSeatOf hub.now.desk.now own.new.seat × (number_of_seat own.new.seat ≡ number_of_seat own.old.seat) }
    ensures wires { length wires.new ≡ length wires.old }
    ensures waiting { length waiting.new ≡ length waiting.old }
    ensures none { (most : ℕ) → NoneWaits most waiting.old → NoneWaits most waiting.new }
    ensures room { IsStreamRoom room.new }
    ensures sends { IfSome result (λ came_to. (most : ℕ) → NoneWaits most waiting.old
        → SendsStreams most ring.old (pass_seen own.old) (pass_seen own.new) (E.seen door.old) (E.seen door.new) (map L.seen wires.old) (map L.seen wires.new) (totals_view came_to)) }
    ensures turns { IfSome result (λ came_to. (E.seen door.new).turns ≡ raised (E.seen door.old).turns) }
    ensures none_out { IfSome result (λ came_to. (E.seen door.new).is_out ≡ false) }
    ensures ends { IfNone result ((E.seen door.new ≡ E.seen door.old) × IsSpent (E.seen door.old).content) }
    ensures unchanged { IfNone result ((own.new ≡ own.old) × (wires.new ≡ wires.old)) }
{
    match door.next_session() {
        Entry::Session(mut asking, telling) => {
            let came_to = forward_stream(rt, hub, own, ring, &mut asking, wires, waiting, room);
            door.leave(asking, telling);
            Some(came_to)
        }
        Entry::Idle | Entry::Failed => Some(ProxyTotals::none()),
        Entry::End => None,
    }
}

/// What a reader of lines did whose serving ended so.
fn lined(ended: DoorEnd, totals: ProxyTotals) -> Lined
    ensures ended { result.ended ≡ ended }
    ensures totals { result.totals ≡ totals }
{
    Lined { ended, totals }
}

/// Reads the sessions of a door as streams, one after another, and gives each back, until the door has none left or took 2^62 turns.
/// Where it fails, it is asked again. The lines that one read ends go to the nodes that own their names as those of a datagram do in
/// `proxy_part`: one look for each read says which nodes are up, and each read is counted at the desk, as no datagram. A line that is
/// too long is bad, and what follows the last newline of a stream is no line.
pub fn line_part<E: Door, L: Wire, R: Wait>(
    rt: &R,
    hub: &ProxyHub<'_>,
    own: &mut ProxyPass,
    ring: &mut Ring,
    door: &mut E,
    wires: &mut [L],
    waiting: &mut [Waiting],
    room: &mut StreamRoom,
) -> Lined
    requires pass { IsPassOf hub.now.cell.now own.old.pass }
    requires seat { IsSeatOf hub.now.desk.now own.old.seat }
    requires wires { length wires.old ≡ length ring.old }
    requires waiting { length waiting.old ≡ length ring.old }
    requires room { IsStreamRoom room.old }
    requires none_out { (E.seen door.old).is_out ≡ false }
    requires turns { (E.seen door.old).turns < 2 ^ 62 }
    ensures ring { ring.new ≡ ring.old }
    ensures pass { IsPassOf hub.now.cell.now own.new.pass × (publishes own.new.pass ≡ publishes own.old.pass) }
    ensures seat { IsSeatOf hub.now.desk.now own.new.seat × (number_of_seat own.new.seat ≡ number_of_seat own.old.seat) }
    ensures wires { length wires.new ≡ length wires.old }
    ensures waiting { length waiting.new ≡ length waiting.old }
    ensures none { (most : ℕ) → NoneWaits most waiting.old → NoneWaits most waiting.new }
    ensures room { IsStreamRoom room.new }
    ensures proxies { (most : ℕ) → NoneWaits most waiting.old
        → LinesByLooks most ring.old (relay_seen own.old (E.seen door.old) (map L.seen wires.old)) (relay_seen own.new (E.seen door.new) (map L.seen wires.new)) result }
{
    let mut totals = ProxyTotals::none();
    for _turn in 0..MOST_TURNS {
        let Some(came_to) = serve_next(rt, hub, own, ring, door, wires, waiting, room) else {
            return lined(DoorEnd::End, totals);
        };
        totals = totals.and(came_to);
    }
    lined(DoorEnd::Worn { turns: MOST_TURNS }, totals)
}
