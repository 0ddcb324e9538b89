//! Two threads submit, one of them by runs of a batch, and a third swaps.
ghost use Rattle.std.specs.Prelude.{◌≡◌, ℕ, ◌+◌, ◌<◌, IfOk, get_or};
ghost use Rattle.sd_model_text.specs.Names.{shard};
ghost use Rattle.sd_shard.specs.Tables.{IsSpare};
ghost use Rattle.sd_pool.specs.Pool.{IsSeatOf, limits_of, own_at, shards_of};
ghost use Rattle.sd_cases_threads.specs.Submitted.{submitted};

use sd_batch::Batch;
use sd_epoch::{Limits, Table};
use sd_line::{Lines, Sample};
use sd_pool::{Pool, Seat, Seats};
use sd_shard::{Policy, ShardBook};
use std::alloc::{AllocError, Global};
use std::sync::Wait;
use std::thread::{Threads, join};

/// Which shard the samples of these cases belong to, of seven.
pub const HOME: u16 = 5;

/// What the pools of these cases have room for.
pub const LIMITS: Limits = Limits {
    rows: 16,
    entries: 4096,
    sums_on_arrival: false,
};

/// No kind is deleted when idle.
pub const POLICY: Policy = Policy {
    counters: false,
    timers: false,
    gauges: false,
    sets: false,
    max_ttl: 1,
};

// Submits a sample so many times.
fn submit_often<R: Wait>(rt: &R, pool: &Pool, mut seat: Seat, s: &Sample, times: u32) -> Seat
    requires { IsSeatOf pool.now seat }
    ensures seat { IsSeatOf pool.now result }
    ensures made { submitted result (shard s.now.key (shards_of pool.now)) ≡ submitted seat (shard s.now.key (shards_of pool.now)) + times }
{
    for _ in 0..times {
        pool.submit(rt, &mut seat, s);
    }
    seat
}

// Swaps a shard so many times, each time for the table that the swap before gave.
fn swap_often<R: Wait>(
    rt: &R,
    pool: &Pool,
    i: u16,
    mut seat: Seat,
    spare: Table,
    times: u32,
) -> Seat
    requires shard { i < shards_of pool.now }
    requires seat { IsSeatOf pool.now seat }
    requires spare { IsSpare (limits_of pool.now) spare }
    ensures seat { IsSeatOf pool.now result }
    ensures made { submitted result i ≡ submitted seat i }
{
    let mut spare = spare;
    for _ in 0..times {
        spare = pool.swap(rt, i, &mut seat, spare);
        spare.clear_samples();
    }
    seat
}

// The sample of a line ten times.
fn ten_of(alloc: Global, line: &[u8], shards: u16) -> Result<Batch, AllocError>
    requires { 0 < shards }
    ensures { IfOk result (λ batch. batch.shards ≡ shards) }
{
    let mut batch = Batch::open(alloc, shards, 10)?;
    for _ in 0..10 {
        if batch.is_full() {
            return Ok(batch);
        }
        let _ = batch.read(&mut Lines::new(line));
    }
    Ok(batch)
}

// Submits the samples of a batch, shard by shard.
fn submit_batch<R: Wait>(rt: &R, pool: &Pool, seat: &mut Seat, batch: &Batch)
    requires seat { IsSeatOf pool.now seat.old }
    requires batch { batch.now.shards ≡ shards_of pool.now }
    ensures { IsSeatOf pool.now seat.new }
{
    for home in 0..pool.shards() {
        pool.submit_run(rt, home, seat, batch);
    }
}

// The same so many times.
fn submit_runs<R: Wait>(rt: &R, pool: &Pool, mut seat: Seat, batch: &Batch, times: u32) -> Seat
    requires seat { IsSeatOf pool.now seat }
    requires batch { batch.now.shards ≡ shards_of pool.now }
    ensures { IsSeatOf pool.now result }
{
    for _ in 0..times {
        submit_batch(rt, pool, &mut seat, batch);
    }
    seat
}

// Two threads submit.
fn submit_both<R: Threads + Wait + Sync>(
    rt: &R,
    pool: &Pool,
    one: Seat,
    two: Seat,
    s: &Sample,
    batch: &Batch,
) -> (Seat, Seat)
    requires seats { IsSeatOf pool.now one × IsSeatOf pool.now two }
    requires batch { batch.now.shards ≡ shards_of pool.now }
    ensures { IsSeatOf pool.now result.0 × IsSeatOf pool.now result.1 }
{
    join(
        rt,
        move || -> Seat
            requires { IsSeatOf pool.now one }
            ensures { IsSeatOf pool.entry.now result }
        { submit_often(rt, pool, one, s, 1000) },
        move || -> Seat
            requires { IsSeatOf pool.now two × (batch.now.shards ≡ shards_of pool.now) }
            ensures { IsSeatOf pool.entry.now result }
        { submit_runs(rt, pool, two, batch, 100) },
    )
}

/// The book of the shard to which the sample of a line belongs, after two threads submitted it 1,000 times each, one of them ten at
/// once, and a third swapped that shard ten times.
pub fn submit_and_swap<R: Threads + Wait + Sync>(
    rt: &R,
    alloc: Global,
    s: &Sample,
    line: &[u8],
) -> Result<ShardBook, AllocError> {
    let (pool, seats) = Pool::open(alloc, LIMITS, POLICY, 7, 2, 0)?;
    let Seats {
        mut receivers,
        flusher,
        admin,
        room,
    } = seats;
    let Some(two) = receivers.pop() else {
        unreachable!()
    };
    let Some(one) = receivers.pop() else {
        unreachable!()
    };
    let spare = Table::open(alloc, LIMITS, 0)?;
    let batch = &ten_of(alloc, line, pool.shards())?;
    let shared = &pool;
    let ((one, two), flusher) = join(
        rt,
        move || -> (Seat, Seat)
            requires { (IsSeatOf shared.now one × IsSeatOf shared.now two) × (batch.now.shards ≡ shards_of shared.now) }
            ensures { IsSeatOf shared.entry.now result.0 × IsSeatOf shared.entry.now result.1 }
        { submit_both(rt, shared, one, two, s, batch) },
        move || -> Seat
            requires { IsSeatOf shared.now flusher × (5 < shards_of shared.now) × IsSpare (limits_of shared.now) spare }
            ensures { IsSeatOf shared.entry.now result }
        { swap_often(rt, shared, HOME, flusher, spare, 10) },
    );
    receivers.push(one)?;
    receivers.push(two)?;
    let books = pool.close(Seats {
        receivers,
        flusher,
        admin,
        room,
    });
    Ok(books[usize::from(HOME)])
}
