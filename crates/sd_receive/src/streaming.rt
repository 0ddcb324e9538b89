ghost use Rattle.std.specs.Prelude.{◌≡◌, ◌<◌, false, length, IfErr, IfOk, OnErr};
ghost use Rattle.sd_desk.specs.Tally.{tally_of};
ghost use Rattle.sd_batch.specs.Filing.{IsOpenFor};
ghost use Rattle.sd_pool.specs.Pool.{IsSeatOf, own_at, shards_of, who_is};
ghost use Rattle.sd_shared_desk.specs.Shared.{IsSeatOf as IsDeskSeatOf, number_of_seat, part_of};
ghost use Rattle.sd_receive.specs.Streaming.{CannotRead, Streams, TakesRead};

use crate::account::Account;
use crate::lines::take_bytes;
use crate::streamed::{StreamEnd, Streamed};
use crate::submitting::Submitting;
use log::Log;
use sd_batch::Batch;
use sd_outside::{Clock, Gate, NoGate, Source};
use sd_pool::Seat;
use sd_shared::Shared;
use sd_shared_desk::DeskSeat;
use sd_tcp::Cutter;
use std::sync::Wait;

// The most reads of a stream.
const MOST_READS: u64 = 1 << 62;

/// Reads once. The lines that the bytes end are filed, and counted at the desk. Where no byte came, the stream has ended.
fn take_read<A: Source, G: Gate, C: Clock, R: Wait + Log>(
    rt: &R,
    shared: &Shared<'_, G, C>,
    own: &mut DeskSeat,
    seat: &mut Seat,
    cutter: &mut Cutter,
    source: &mut A,
    buf: &mut [u8],
    batch: &mut Batch,
) -> Result<Account, StreamEnd>
    requires own { IsDeskSeatOf shared.now.desk.now own.old }
    requires seat { IsSeatOf shared.now.pool.now seat.old }
    requires none_ready { cutter.old.is_ready ≡ false }
    requires room { 0 < length buf.old }
    requires batch { IsOpenFor (shards_of shared.now.pool.now) batch.old }
    ensures own { IsDeskSeatOf shared.now.desk.now own.new × (number_of_seat own.new ≡ number_of_seat own.old) }
    ensures seat { IsSeatOf shared.now.pool.now seat.new × (who_is seat.new ≡ who_is seat.old) }
    ensures none_ready { cutter.new.is_ready ≡ false }
    ensures room { length buf.new ≡ length buf.old }
    ensures batch { batch.new ≡ batch.old }
    ensures takes { IfOk result (λ account. TakesRead (C.may_say shared.now.clock.now) (shards_of shared.now.pool.now) (A.seen source.old) (A.seen source.new) cutter.old cutter.new (own_at seat.old) (own_at seat.new) (part_of own.old) (part_of own.new) (tally_of account.tally) account.taken) }
    ensures ends { IfErr result (λ ended. CannotRead ended (A.seen source.old) (A.seen source.new)) }
    ensures unchanged { OnErr result ((own.new ≡ own.old) × (seat.new ≡ seat.old)) }
{
    match source.read(buf) {
        Ok(0) => Err(StreamEnd::End),
        Ok(len) => {
            let group = Submitting {
                rt,
                pool: shared.pool,
                gate: &NoGate,
            };
            let account = take_bytes(&group, seat, cutter, batch, &buf[..len]);
            shared.desk.add(rt, account.tally, shared.clock.now(), own);
            Ok(account)
        }
        Err(_) => Err(StreamEnd::Failed),
    }
}

/// Reads a stream to its end, until it fails, or 2^62 reads were made. The good samples of the lines that a read ends are submitted,
/// in order at each shard, by one turn of it for as many as the batch has room for, and then what these lines count for is added at
/// the desk. What follows the last newline is no line. It takes no memory.
pub fn stream<A: Source, G: Gate, C: Clock, R: Wait + Log>(
    rt: &R,
    shared: &Shared<'_, G, C>,
    own: &mut DeskSeat,
    seat: &mut Seat,
    cutter: &mut Cutter,
    source: &mut A,
    buf: &mut [u8],
    batch: &mut Batch,
) -> Streamed
    requires own { IsDeskSeatOf shared.now.desk.now own.old }
    requires seat { IsSeatOf shared.now.pool.now seat.old }
    requires room { 0 < length buf.old }
    requires batch { IsOpenFor (shards_of shared.now.pool.now) batch.old }
    ensures own { IsDeskSeatOf shared.now.desk.now own.new × (number_of_seat own.new ≡ number_of_seat own.old) }
    ensures seat { IsSeatOf shared.now.pool.now seat.new × (who_is seat.new ≡ who_is seat.old) }
    ensures room { length buf.new ≡ length buf.old }
    ensures batch { batch.new ≡ batch.old }
    ensures streams { Streams (C.may_say shared.now.clock.now) (shards_of shared.now.pool.now) (A.seen source.old) (A.seen source.new) (own_at seat.old) (own_at seat.new) (part_of own.old) (part_of own.new) result }
{
    cutter.reset();
    let mut account = Account::none();
    for _read in 0..MOST_READS {
        match take_read(rt, shared, own, seat, cutter, source, buf, batch) {
            Ok(more) => account = account.and(more),
            Err(ended) => return Streamed::of(ended, account),
        }
    }
    Streamed::of(StreamEnd::Worn { turns: MOST_READS }, account)
}
