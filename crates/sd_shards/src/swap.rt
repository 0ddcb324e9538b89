ghost use Rattle.std.specs.Prelude.{◌≡◌, ℕ, ◌<◌, ◌≤◌, ◌+◌, [], ◌∷◌, ◌++◌, length, map};
ghost use Rattle.sd_model_shard.specs.Shard.{after_swap, table_of};
ghost use Rattle.sd_epoch.specs.Table.{table_of as table_seen};
ghost use Rattle.sd_shard.specs.Shard.{state_of};
ghost use Rattle.sd_shards.specs.Standings.{state_in, limits_in, policy_in, GoBy, GoTogether};

use sd_shard::{Shard, Spares, swap_shard};

/// Swaps a shard for the next spare table, and keeps the table that it gives.
fn swap_one(shard: &mut Shard, spares: &mut Spares)
    requires enough { 1 ≤ length spares.old.waiting }
    requires room { length spares.old.waiting + length spares.old.swapped ≤ spares.old.room }
    requires fits { spares.old.limits ≡ shard.old.table.limits }
    ensures state { state_of shard.new ≡ after_swap shard.old.policy (state_of shard.old) }
    ensures limits { shard.new.table.limits ≡ shard.old.table.limits }
    ensures policy { shard.new.policy ≡ shard.old.policy }
    ensures left { length spares.new.waiting + 1 ≡ length spares.old.waiting }
    ensures tables { map table_seen spares.new.swapped ≡ map table_seen spares.old.swapped ++ table_of (state_of shard.old) ∷ [] }
    ensures len { length spares.new.swapped ≡ length spares.old.swapped + 1 }
    ensures room { spares.new.room ≡ spares.old.room }
    ensures spare_limits { spares.new.limits ≡ spares.old.limits }
{
    let spare = spares.next();
    spares.keep(swap_shard(shard, spare));
}

/// Swaps each shard, in order.
pub(crate) fn swap_all(shards: &mut [Shard], spares: &mut Spares)
    requires bounds { GoTogether shards.old }
    requires enough { length shards.old ≤ length spares.old.waiting }
    requires room { length spares.old.waiting + length spares.old.swapped ≤ spares.old.room }
    requires fits { spares.old.limits ≡ limits_in shards.old }
    ensures bounds { GoBy (limits_in shards.old) (policy_in shards.old) shards.new }
    ensures states { (i : ℕ) → i < length shards.old → state_in shards.new i ≡ after_swap (policy_in shards.old) (state_in shards.old i) }
    ensures left { length spares.new.waiting + length shards.old ≡ length spares.old.waiting }
    ensures tables { map table_seen spares.new.swapped ≡ map table_seen spares.old.swapped ++ map (λ s. table_of (state_of s)) shards.old }
    ensures len { length spares.new.swapped ≡ length spares.old.swapped + length shards.old }
    ensures room { spares.new.room ≡ spares.old.room }
    ensures limits { spares.new.limits ≡ spares.old.limits }
{
    for shard in shards {
        swap_one(shard, spares);
    }
}
