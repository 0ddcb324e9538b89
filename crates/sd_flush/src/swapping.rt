ghost use Rattle.std.specs.Prelude.{◌≡◌, ◌+◌, ◌<◌, ◌≤◌, [], length};
ghost use Rattle.sd_model_serve.specs.Receiving.{flusher};
ghost use Rattle.sd_pool.specs.Pool.{IsSeatOf, limits_of, shards_of, who_is};
ghost use Rattle.sd_flush.specs.Swapping.{SwapsOne, SwapsAll};

use sd_pool::{Pool, Seat};
use sd_shard::Spares;
use std::sync::Wait;

// Swaps shard i for the next spare table, and keeps the table that it gives.
fn swap_one<R: Wait>(rt: &R, pool: &Pool, i: u16, seat: &mut Seat, spares: &mut Spares)
    requires shard { i < shards_of pool.now }
    requires seat { IsSeatOf pool.now seat.old }
    requires limits { spares.old.limits ≡ limits_of pool.now }
    requires some { 0 < length spares.old.waiting }
    requires room { length spares.old.waiting + length spares.old.swapped ≤ spares.old.room }
    ensures seat { IsSeatOf pool.now seat.new }
    ensures swaps { SwapsOne pool.now i seat.old seat.new spares.old spares.new }
{
    let spare = spares.next();
    spares.keep(pool.swap(rt, i, seat, spare));
}

/// Swaps each shard, in order.
pub(crate) fn swap_all<R: Wait>(rt: &R, pool: &Pool, seat: &mut Seat, spares: &mut Spares)
    requires seat { IsSeatOf pool.now seat.old }
    requires flusher { who_is seat.old ≡ flusher }
    requires limits { spares.old.limits ≡ limits_of pool.now }
    requires room { spares.old.room ≡ shards_of pool.now }
    requires spares { length spares.old.waiting ≡ shards_of pool.now }
    requires none_out { spares.old.swapped ≡ [] }
    ensures seat { IsSeatOf pool.now seat.new }
    ensures who { who_is seat.new ≡ who_is seat.old }
    ensures swaps { SwapsAll pool.now seat.old seat.new spares.old spares.new }
{
    for i in 0..pool.shards() {
        swap_one(rt, pool, i, seat, spares);
    }
}
