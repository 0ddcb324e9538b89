ghost use Rattle.std.specs.Prelude.{◌≡◌, ◌<◌, ◌≤◌, ◌^◌, length, map, IfNone, IfSome, None};
ghost use Rattle.sd_outside.specs.Turns.{raised, most_datagram};
ghost use Rattle.sd_shared_desk.specs.Counts.{HasCalled, HasCounted, of_sends};
ghost use Rattle.std.specs.List.{AllByRecursion};
ghost use Rattle.sd_model_record.specs.Desk.{no_tally};
ghost use Rattle.sd_desk.specs.Tally.{tally_of};
ghost use Rattle.sd_batch.specs.Filing.{IsOpenFor};
ghost use Rattle.sd_pool.specs.Pool.{IsSeatOf, own_at, shards_of, who_is};
ghost use Rattle.sd_shared_desk.specs.Shared.{IsSeatOf as IsDeskSeatOf, number_of_seat, part_of};
ghost use Rattle.sd_receive.specs.Received.{HasReceived};
ghost use Rattle.sd_receive.specs.Receiving.{EndsSo, IsFailedSend, TakesDatagram, most_read};

use crate::submitting::Submitting;
use crate::telling::tell_bad;
use log::Log;
use sd_batch::{Batch, file_datagram};
use sd_desk::Tally;
use sd_outside::{Clock, Datagrams, Ended, Gate, Next, Wire};
use sd_pool::Seat;
use sd_repeater::repeat;
use sd_shared::Shared;
use sd_shared_desk::{DeskSeat, SharedDesk};
use std::sync::Wait;

/// What a turn of a source came to: what was read, and how the receiver ended, if it did.
#[derive(Clone, Copy, Debug, PartialEq, Eq)]
pub(crate) struct Turn {
    pub tally: Tally,
    pub taken: u64,
    pub ended: Option<Ended>,
}

// A turn that read nothing.
fn read_nothing(ended: Option<Ended>) -> Turn
    ensures ended { result.ended ≡ ended }
    ensures tally { tally_of result.tally ≡ no_tally }
    ensures taken { result.taken ≡ 0 }
{
    Turn {
        tally: Tally::none(),
        taken: 0,
        ended,
    }
}

// Counts sends that failed, where any did.
fn count_sends<R: Wait>(rt: &R, desk: &SharedDesk, own: &mut DeskSeat, failed: u32)
    requires { IsDeskSeatOf desk.now own.old }
    ensures own { IsDeskSeatOf desk.now own.new × (number_of_seat own.new ≡ number_of_seat own.old) }
    ensures counted { HasCounted (of_sends failed) (part_of own.old) (part_of own.new) }
    ensures called { HasCalled (AllByRecursion IsFailedSend) (part_of own.old) (part_of own.new) }
{
    if failed > 0 {
        desk.repeater_faults(rt, failed, own);
    }
}

// Repeats a datagram, submits its samples, and counts it.
fn take_datagram<L: Wire, G: Gate, C: Clock, R: Wait + Log>(
    rt: &R,
    shared: &Shared<'_, G, C>,
    own: &mut DeskSeat,
    seat: &mut Seat,
    wires: &mut [L],
    batch: &mut Batch,
    datagram: &[u8],
) -> Turn
    requires own { IsDeskSeatOf shared.now.desk.now own.old }
    requires seat { IsSeatOf shared.now.pool.now seat.old }
    requires wires { length wires.old < 2 ^ 32 }
    requires batch { IsOpenFor (shards_of shared.now.pool.now) batch.old }
    requires datagram { length datagram.now ≤ most_datagram }
    ensures own { IsDeskSeatOf shared.now.desk.now own.new × (number_of_seat own.new ≡ number_of_seat own.old) }
    ensures seat { IsSeatOf shared.now.pool.now seat.new × (who_is seat.new ≡ who_is seat.old) }
    ensures wires { length wires.new ≡ length wires.old }
    ensures batch { batch.new ≡ batch.old }
    ensures takes { TakesDatagram (C.may_say shared.now.clock.now) (shards_of shared.now.pool.now) datagram.now (map L.seen wires.old) (map L.seen wires.new) (own_at seat.old) (own_at seat.new) (part_of own.old) (part_of own.new) (tally_of result.tally) result.taken }
    ensures goes_on { result.ended ≡ None }
{
    let failed = repeat(datagram, wires);
    let group = Submitting {
        rt,
        pool: shared.pool,
        gate: shared.gate,
    };
    let filed = file_datagram(&group, seat, batch, datagram);
    let tally = Tally {
        packets: 1,
        lines: filed.lines,
        bad: filed.bad,
        dropped: filed.dropped,
    };
    shared.desk.add(rt, tally, shared.clock.now(), own);
    count_sends(rt, shared.desk, own, failed);
    tell_bad(rt, datagram, filed.bad);
    Turn {
        tally,
        taken: filed.taken,
        ended: None,
    }
}

/// Asks the source once, unless enough flushes were counted.
pub(crate) fn take_turn<D: Datagrams, L: Wire, G: Gate, C: Clock, R: Wait + Log>(
    rt: &R,
    shared: &Shared<'_, G, C>,
    own: &mut DeskSeat,
    seat: &mut Seat,
    packets: &mut D,
    wires: &mut [L],
    buf: &mut [u8],
    batch: &mut Batch,
) -> Turn
    requires own { IsDeskSeatOf shared.now.desk.now own.old }
    requires seat { IsSeatOf shared.now.pool.now seat.old }
    requires wires { length wires.old < 2 ^ 32 }
    requires room { most_datagram ≤ length buf.old }
    requires batch { IsOpenFor (shards_of shared.now.pool.now) batch.old }
    ensures own { IsDeskSeatOf shared.now.desk.now own.new × (number_of_seat own.new ≡ number_of_seat own.old) }
    ensures seat { IsSeatOf shared.now.pool.now seat.new × (who_is seat.new ≡ who_is seat.old) }
    ensures wires { length wires.new ≡ length wires.old }
    ensures room { length buf.new ≡ length buf.old }
    ensures batch { batch.new ≡ batch.old }
    ensures takes { HasReceived (C.may_say shared.now.clock.now) (shards_of shared.now.pool.now) (most_read result.ended) (D.seen packets.old) (D.seen packets.new) (map L.seen wires.old) (map L.seen wires.new) (own_at seat.old) (own_at seat.new) (part_of own.old) (part_of own.new) (tally_of result.tally) result.taken }
    ensures place { (D.seen packets.new).opened_at ≡ (D.seen packets.old).opened_at }
    ensures goes_on { IfNone result.ended (((D.seen packets.new).turns ≡ raised (D.seen packets.old).turns) × ((D.seen packets.new).faults ≡ (D.seen packets.old).faults)) }
    ensures ends { IfSome result.ended (λ ended. EndsSo shared.now.run_flushes ended (D.seen packets.old) (D.seen packets.new) (part_of own.new) 0 × ((D.seen packets.new).turns ≡ (D.seen packets.old).turns)) }
{
    shared.gate.pass(0);
    if let Some(rounds) = shared.desk.rounds_reached(rt, shared.run_flushes, own) {
        return read_nothing(Some(Ended::Stopped { rounds }));
    }
    match packets.next(buf) {
        Next::Packet { len } => take_datagram(rt, shared, own, seat, wires, batch, &buf[..len]),
        Next::End => read_nothing(Some(Ended::End)),
        Next::Idle => read_nothing(None),
        Next::Failed => read_nothing(Some(Ended::Failed)),
    }
}
