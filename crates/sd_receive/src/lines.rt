//! The lines of a stream. Those that one read ends are filed together, as the lines of a datagram are.
ghost use Rattle.std.specs.Prelude.{◌≡◌, ◌<◌, ◌≤◌, false, [], ◌∷◌, length, take};
ghost use Rattle.sd_desk.specs.Tally.{tally_of};
ghost use Rattle.sd_batch.specs.Filing.{HasRoomFor, IsOpenFor};
ghost use Rattle.sd_pool.specs.Pool.{IsSeatOf, own_at, shards_of, who_is};
ghost use Rattle.sd_tcp.specs.Cut.{IsShort, cut_view};
ghost use Rattle.sd_receive.specs.Received.{HasFiled};
ghost use Rattle.sd_receive.specs.Streaming.{ReadsBytes, ReadsLines, TakesBytes};

use crate::account::Account;
use crate::submitting::Submitting;
use crate::telling::{tell_bad, tell_long};
use log::Log;
use sd_batch::{Batch, read_datagram, submit_waiting};
use sd_desk::Tally;
use sd_outside::NoGate;
use sd_pool::Seat;
use sd_tcp::{Cut, Cutter};
use std::sync::Wait;

/// How many bytes were taken, and what the line that they ended came to, if they ended one.
#[derive(Clone, Copy, Debug, PartialEq, Eq)]
struct Taken {
    len: usize,
    account: Account,
}

/// Reads a line into the batch, where its samples wait behind those that waited before.
fn read_line<R: Wait + Log>(
    group: &Submitting<'_, NoGate, R>,
    seat: &mut Seat,
    batch: &mut Batch,
    line: Cut<'_>,
) -> Account
    requires seat { IsSeatOf group.now.pool.now seat.old }
    requires batch { HasRoomFor (shards_of group.now.pool.now) batch.old }
    requires line { IsShort line }
    ensures seat { IsSeatOf group.now.pool.now seat.new × (who_is seat.new ≡ who_is seat.old) }
    ensures batch { batch.new ≡ record batch.old { items = batch.new.items } }
    ensures room { length batch.new.items < batch.new.room }
    ensures files { ReadsLines (shards_of group.now.pool.now) (cut_view line.entry ∷ []) batch.old.items batch.new.items (own_at seat.old) (own_at seat.new) (tally_of result.tally) result.taken }
{
    match line {
        Cut::Line(bytes) => {
            let filed = read_datagram(group, seat, batch, bytes);
            tell_bad(group.rt, bytes, filed.bad);
            let tally = Tally {
                packets: 0,
                lines: filed.lines,
                bad: filed.bad,
                dropped: filed.dropped,
            };
            Account {
                tally,
                taken: filed.taken,
            }
        }
        Cut::Long => {
            tell_long(group.rt);
            Account {
                tally: Tally {
                    packets: 0,
                    lines: 1,
                    bad: 1,
                    dropped: 0,
                },
                taken: 0,
            }
        }
    }
}

/// Reads the line that a cutter has ready, if it has one, and ends it.
fn read_ready<R: Wait + Log>(
    group: &Submitting<'_, NoGate, R>,
    seat: &mut Seat,
    cutter: &mut Cutter,
    batch: &mut Batch,
) -> Account
    requires seat { IsSeatOf group.now.pool.now seat.old }
    requires batch { HasRoomFor (shards_of group.now.pool.now) batch.old }
    ensures seat { IsSeatOf group.now.pool.now seat.new × (who_is seat.new ≡ who_is seat.old) }
    ensures batch { batch.new ≡ record batch.old { items = batch.new.items } }
    ensures room { length batch.new.items < batch.new.room }
    ensures none_ready { cutter.new.is_ready ≡ false }
    ensures takes { ReadsBytes (shards_of group.now.pool.now) [] cutter.old cutter.new batch.old.items batch.new.items (own_at seat.old) (own_at seat.new) (tally_of result.tally) result.taken }
{
    let Some(line) = cutter.ready() else {
        return Account::none();
    };
    let account = read_line(group, seat, batch, line);
    cutter.finish();
    account
}

/// Takes the bytes up to the first newline and with it, or all, and reads the line that they end. A line that stands whole among
/// them isn't copied.
fn take_line<R: Wait + Log>(
    group: &Submitting<'_, NoGate, R>,
    seat: &mut Seat,
    cutter: &mut Cutter,
    batch: &mut Batch,
    bytes: &[u8],
) -> Taken
    requires seat { IsSeatOf group.now.pool.now seat.old }
    requires none_ready { cutter.old.is_ready ≡ false }
    requires batch { HasRoomFor (shards_of group.now.pool.now) batch.old }
    requires bytes { 0 < length bytes.now }
    ensures seat { IsSeatOf group.now.pool.now seat.new × (who_is seat.new ≡ who_is seat.old) }
    ensures batch { batch.new ≡ record batch.old { items = batch.new.items } }
    ensures room { length batch.new.items < batch.new.room }
    ensures none_ready { cutter.new.is_ready ≡ false }
    ensures some { 0 < result.len }
    ensures within { result.len ≤ length bytes.now }
    ensures takes { ReadsBytes (shards_of group.now.pool.now) (take result.len bytes.now) cutter.old cutter.new batch.old.items batch.new.items (own_at seat.old) (own_at seat.new) (tally_of result.account.tally) result.account.taken }
{
    if let Some(line) = cutter.whole_line(bytes) {
        return Taken {
            len: line.len() + 1,
            account: read_line(group, seat, batch, Cut::Line(line)),
        };
    }
    let len = cutter.push(bytes);
    let account = read_ready(group, seat, cutter, batch);
    Taken { len, account }
}

/// Submits the samples that wait.
fn submit_rest<R: Wait + Log>(
    group: &Submitting<'_, NoGate, R>,
    seat: &mut Seat,
    batch: &mut Batch,
) -> Account
    requires seat { IsSeatOf group.now.pool.now seat.old }
    requires batch { HasRoomFor (shards_of group.now.pool.now) batch.old }
    ensures seat { IsSeatOf group.now.pool.now seat.new × (who_is seat.new ≡ who_is seat.old) }
    ensures batch { batch.new ≡ record batch.old { items = [] } }
    ensures files { HasFiled (shards_of group.now.pool.now) batch.old.items 0 0 0 (own_at seat.old) (own_at seat.new) (tally_of result.tally) result.taken }
{
    let filed = submit_waiting(group, seat, batch);
    Account {
        tally: Tally {
            packets: 0,
            lines: 0,
            bad: 0,
            dropped: filed.dropped,
        },
        taken: filed.taken,
    }
}

/// Takes all of the bytes, and files the lines that they end. Their samples wait until there is no room for another, or no byte
/// is left.
pub(crate) fn take_bytes<R: Wait + Log>(
    group: &Submitting<'_, NoGate, R>,
    seat: &mut Seat,
    cutter: &mut Cutter,
    batch: &mut Batch,
    bytes: &[u8],
) -> Account
    requires seat { IsSeatOf group.now.pool.now seat.old }
    requires none_ready { cutter.old.is_ready ≡ false }
    requires batch { IsOpenFor (shards_of group.now.pool.now) batch.old }
    ensures seat { IsSeatOf group.now.pool.now seat.new × (who_is seat.new ≡ who_is seat.old) }
    ensures batch { batch.new ≡ batch.old }
    ensures none_ready { cutter.new.is_ready ≡ false }
    ensures takes { TakesBytes (shards_of group.now.pool.now) bytes.now cutter.old cutter.new (own_at seat.old) (own_at seat.new) (tally_of result.tally) result.taken }
{
    let mut account = Account::none();
    let mut rest = bytes;
    while !rest.is_empty() {
        let taken = take_line(group, seat, cutter, batch, rest);
        account = account.and(taken.account);
        rest = &rest[taken.len..];
    }
    account.and(submit_rest(group, seat, batch))
}
