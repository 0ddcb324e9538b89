ghost use Rattle.std.specs.Prelude.{◌≡◌, ◌<◌, ◌≤◌, ◌^◌, length, map};
ghost use Rattle.sd_outside.specs.Turns.{most_datagram};
ghost use Rattle.sd_model_record.specs.Desk.{counted as counted_up};
ghost use Rattle.sd_batch.specs.Filing.{IsOpenFor};
ghost use Rattle.sd_pool.specs.Pool.{IsSeatOf, own_at, shards_of, who_is};
ghost use Rattle.sd_shared_desk.specs.Shared.{IsSeatOf as IsDeskSeatOf, number_of_seat, part_of};
ghost use Rattle.sd_receive.specs.Receiving.{Receives};

use crate::received::Received;
use crate::turn::take_turn;
use log::Log;
use sd_batch::Batch;
use sd_desk::Tally;
use sd_outside::{Clock, Datagrams, Ended, Gate, Wire};
use sd_pool::Seat;
use sd_shared::Shared;
use sd_shared_desk::DeskSeat;
use std::sync::Wait;

// The most turns of a source.
const MOST_TURNS: u64 = 1 << 62;

// Where counts stop.
const LAST_COUNT: u64 = 1 << 63;

/// A count with more, up to its end.
pub(crate) fn counted(n: u64, more: u64) -> u64
    ensures { result ≡ counted_up n more }
{
    n.saturating_add(more).min(LAST_COUNT)
}

/// Takes the datagrams of a source, until none is left or it fails, `shared.run_flushes` flushes were counted at the desk, or the
/// source took 2^62 turns. Each datagram is repeated on the wires, its good samples are submitted, in order at each shard, by
/// one turn of it for as many as the batch has room for, and then it is counted at the desk, once. Before it asks for a datagram it
/// passes place 0 of the gate, and behind the answers of a turn place 1, once for each sample.
pub fn receive<D: Datagrams, L: Wire, G: Gate, C: Clock, R: Wait + Log>(
    rt: &R,
    shared: &Shared<'_, G, C>,
    own: &mut DeskSeat,
    seat: &mut Seat,
    packets: &mut D,
    wires: &mut [L],
    buf: &mut [u8],
    batch: &mut Batch,
) -> Received
    requires own { IsDeskSeatOf shared.now.desk.now own.old }
    requires seat { IsSeatOf shared.now.pool.now seat.old }
    requires wires { length wires.old < 2 ^ 32 }
    requires room { most_datagram ≤ length buf.old }
    requires batch { IsOpenFor (shards_of shared.now.pool.now) batch.old }
    ensures own { IsDeskSeatOf shared.now.desk.now own.new × (number_of_seat own.new ≡ number_of_seat own.old) }
    ensures seat { IsSeatOf shared.now.pool.now seat.new × (who_is seat.new ≡ who_is seat.old) }
    ensures wires { length wires.new ≡ length wires.old }
    ensures room { length buf.new ≡ length buf.old }
    ensures batch { batch.new ≡ batch.old }
    ensures receives { Receives (C.may_say shared.now.clock.now) (shards_of shared.now.pool.now) shared.now.run_flushes (D.seen packets.old) (D.seen packets.new) (map L.seen wires.old) (map L.seen wires.new) (own_at seat.old) (own_at seat.new) (part_of own.old) (part_of own.new) result }
{
    let mut tally = Tally::none();
    let mut taken = 0;
    for _turn in 0..MOST_TURNS {
        let turn = take_turn(rt, shared, own, seat, packets, wires, buf, batch);
        tally = tally.and(turn.tally);
        taken = counted(taken, turn.taken);
        if let Some(ended) = turn.ended {
            return Received {
                ended,
                tally,
                taken,
            };
        }
    }
    Received {
        ended: Ended::Worn { turns: MOST_TURNS },
        tally,
        taken,
    }
}
