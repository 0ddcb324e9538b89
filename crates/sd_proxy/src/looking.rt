ghost use Rattle.std.specs.Prelude.{◌≡◌, ◌≤◌, ℕ, length, map};
ghost use Rattle.sd_outside.specs.Turns.{most_datagram};
ghost use Rattle.sd_live.specs.Live.{IsPassOf, publishes};
ghost use Rattle.sd_proxy_desk.specs.Shared.{IsSeatOf, number_of_seat};
ghost use Rattle.sd_proxy.specs.Forwarding.{NoneWaits};
ghost use Rattle.sd_proxy.specs.Proxying.{ProxiesByLooks, relay_seen};

use crate::forwarding::forward_datagram;
use crate::proxied::Proxied;
use crate::proxying::{MOST_TURNS, proxied};
use crate::waiting::Waiting;
use sd_outside::{Datagrams, Ended, Next, Wire};
use sd_proxy_desk::{ProxyHub, ProxyPass, ProxyTotals};
use sd_ring::Ring;
use std::sync::Wait;

/// Takes the datagrams of a source as `proxy` does, but looks for each datagram once which nodes are up, routes all its lines under the
/// set that the look answers, and counts at the desk what the datagram came to.
pub fn proxy_part<D: Datagrams, L: Wire, R: Wait>(
    rt: &R,
    hub: &ProxyHub<'_>,
    own: &mut ProxyPass,
    ring: &mut Ring,
    packets: &mut D,
    wires: &mut [L],
    waiting: &mut [Waiting],
    buf: &mut [u8],
) -> Proxied
    requires pass { IsPassOf hub.now.cell.now own.old.pass }
    requires seat { IsSeatOf hub.now.desk.now own.old.seat }
    requires wires { length wires.old ≡ length ring.old }
    requires waiting { length waiting.old ≡ length ring.old }
    requires room { most_datagram ≤ length buf.old }
    ensures ring { ring.new ≡ ring.old }
    ensures pass { IsPassOf hub.now.cell.now own.new.pass × (publishes own.new.pass ≡ publishes own.old.pass) }
    ensures seat { IsSeatOf hub.now.desk.now own.new.seat × (number_of_seat own.new.seat ≡ number_of_seat own.old.seat) }
    ensures wires { length wires.new ≡ length wires.old }
    ensures waiting { length waiting.new ≡ length waiting.old }
    ensures none { (most : ℕ) → NoneWaits most waiting.old → NoneWaits most waiting.new }
    ensures room { length buf.new ≡ length buf.old }
    ensures proxies { (most : ℕ) → NoneWaits most waiting.old
        → ProxiesByLooks most ring.old (relay_seen own.old (D.seen packets.old) (map L.seen wires.old)) (relay_seen own.new (D.seen packets.new) (map L.seen wires.new)) result }
{
    let mut totals = ProxyTotals::none();
    for _turn in 0..MOST_TURNS {
        match packets.next(buf) {
            Next::Packet { len } => {
                let up = hub.cell.look(rt, &mut own.pass);
                let mut came_to = ProxyTotals::none();
                forward_datagram(ring, &buf[..len], up, wires, waiting, &mut came_to);
                totals = totals.and(came_to);
                hub.desk.count(rt, came_to, &mut own.seat);
            }
            Next::Idle => continue,
            Next::End => return proxied(Ended::End, totals),
            Next::Failed => return proxied(Ended::Failed, totals),
        }
    }
    proxied(Ended::Worn { turns: MOST_TURNS }, totals)
}
