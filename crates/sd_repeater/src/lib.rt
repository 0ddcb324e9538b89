//! The repeater: each datagram, sent on as it came.
//!
//! `sd_replay` and the receivers of `sd_receive` send each packet so, to the targets of the repeater. A send that fails is
//! counted and stops no other, and nothing is sent twice. It takes no memory, and knows no sockets: a wire is whatever is a
//! `Wire`.
#![tactic(auto)]

ghost use Rattle.std.specs.Prelude.{◌<◌, ◌^◌, length, map};
ghost use Rattle.sd_model_outside.specs.Uses.{HasSent};
ghost use Rattle.sd_repeater.specs.Repeat.{HasRepeated};

use sd_outside::Wire;

/// Sends a packet on each wire, in order, and answers how many of the sends failed. One that fails doesn't stop the
/// others. No memory is taken.
pub fn repeat<L: Wire>(packet: &[u8], wires: &mut [L]) -> u32
    requires { length wires.old < 2 ^ 32 }
    ensures { HasRepeated packet.now (map L.seen wires.old) (map L.seen wires.new) result }
{
    let mut failed = 0;
    for wire in wires {
        failed += u32::from(has_failed(packet, wire));
    }
    failed
}

/// Sends a packet on a wire, and answers whether that failed.
fn has_failed<L: Wire>(packet: &[u8], wire: &mut L) -> bool
    ensures { HasSent packet.now result (L.seen wire.old) (L.seen wire.new) }
{
    wire.send(packet).is_err()
}
