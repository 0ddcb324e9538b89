ghost use Rattle.std.specs.Prelude.{◌≡◌, ◌≤◌, ℕ, length, map};
ghost use Rattle.sd_outside.specs.Turns.{most_datagram};
ghost use Rattle.sd_proxy.specs.Forwarding.{NoneWaits};
ghost use Rattle.sd_proxy.specs.Proxying.{Proxies};

use crate::forwarding::forward_datagram;
use crate::proxied::Proxied;
use crate::waiting::Waiting;
use sd_outside::{Datagrams, Ended, Next, Wire};
use sd_proxy_desk::ProxyTotals;
use sd_ring::Ring;

/// The most turns of a source.
pub(crate) const MOST_TURNS: u64 = 1 << 62;

/// Takes the datagrams of a source, until none is left, it fails, or it took 2^62 turns. Each line of each datagram goes on the
/// wire of its owner among the nodes of the set `up`, in order, without its newline: those of one datagram together in packets, as many
/// in each as `waiting` has room for, with a newline between each two. A send that fails is counted, and ends nothing.
pub fn proxy<D: Datagrams, L: Wire>(
    ring: &mut Ring,
    packets: &mut D,
    wires: &mut [L],
    waiting: &mut [Waiting],
    buf: &mut [u8],
    up: u64,
) -> Proxied
    requires wires { length wires.old ≡ length ring.old }
    requires waiting { length waiting.old ≡ length ring.old }
    requires room { most_datagram ≤ length buf.old }
    ensures ring { ring.new ≡ ring.old }
    ensures wires { length wires.new ≡ length wires.old }
    ensures waiting { length waiting.new ≡ length waiting.old }
    ensures none { (most : ℕ) → NoneWaits most waiting.old → NoneWaits most waiting.new }
    ensures room { length buf.new ≡ length buf.old }
    ensures proxies { (most : ℕ) → NoneWaits most waiting.old → Proxies most ring.old up (D.seen packets.old) (D.seen packets.new) (map L.seen wires.old) (map L.seen wires.new) result }
{
    let mut totals = ProxyTotals::none();
    for _turn in 0..MOST_TURNS {
        match packets.next(buf) {
            Next::Packet { len } => forward_datagram(
                ring,
                &buf[..len],
                up,
                wires,
                waiting,
                &mut totals,
            ),
            Next::Idle => continue,
            Next::End => return proxied(Ended::End, totals),
            Next::Failed => return proxied(Ended::Failed, totals),
        }
    }
    proxied(Ended::Worn { turns: MOST_TURNS }, totals)
}

/// What a proxy did that ended so.
pub(crate) fn proxied(ended: Ended, totals: ProxyTotals) -> Proxied
    ensures ended { result.ended ≡ ended }
    ensures totals { result.totals ≡ totals }
{
    Proxied { ended, totals }
}
