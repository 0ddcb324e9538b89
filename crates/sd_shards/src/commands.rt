ghost use Rattle.std.specs.Prelude.{◌≡◌, ℕ, ◌<◌, ◌≤◌, ◌+◌, ◌*◌, length, map, flat_map};
ghost use Rattle.sd_model_shard.specs.Shard.{Dumped, after_delete, deletion_of};
ghost use Rattle.sd_model_shard.specs.Rows.{dump_of};
ghost use Rattle.sd_model_record.specs.Replies.{keys_in};
ghost use Rattle.sd_key.specs.Kind.{kind_of};
ghost use Rattle.sd_shard.specs.Dump.{rows_of};
ghost use Rattle.sd_shard.specs.Shard.{state_of, Appends};
ghost use Rattle.sd_shards.specs.Standings.{state_in, limits_in, policy_in, GoBy, GoTogether};

use sd_key::{Kind, Pattern};
use sd_shard::{Dump, Keys, Shard};

/// Deletes in a shard, and appends the keys that went.
fn delete_one(shard: &mut Shard, kind: Kind, name: &Pattern, keys: &mut Keys)
    requires { length keys.old.items + shard.old.table.limits.rows ≤ keys.old.room }
    ensures state { state_of shard.new ≡ after_delete (kind_of kind) name.now (state_of shard.old) }
    ensures limits { shard.new.table.limits ≡ shard.old.table.limits }
    ensures policy { shard.new.policy ≡ shard.old.policy }
    ensures keys { Appends (keys_in (deletion_of (kind_of kind) name.now (state_of shard.old))) keys.old.items keys.new.items }
    ensures few { length keys.new.items ≤ length keys.old.items + shard.old.table.limits.rows }
    ensures room { keys.new.room ≡ keys.old.room }
{
    // It has no more rows than its limits say, for which there is room.
    let _ = shard.rows();
    let _ = shard.delete(kind, name, keys);
}

/// Deletes in each shard, in order, and appends the keys that went.
pub(crate) fn delete_all(shards: &mut [Shard], kind: Kind, name: &Pattern, keys: &mut Keys)
    requires bounds { GoTogether shards.old }
    requires room { length keys.old.items + length shards.old * (limits_in shards.old).rows ≤ keys.old.room }
    ensures bounds { GoBy (limits_in shards.old) (policy_in shards.old) shards.new }
    ensures states { (i : ℕ) → i < length shards.old → state_in shards.new i ≡ after_delete (kind_of kind) name.now (state_in shards.old i) }
    ensures keys { Appends (flat_map (λ s. keys_in (deletion_of (kind_of kind) name.now (state_of s))) shards.old) keys.old.items keys.new.items }
    ensures room { keys.new.room ≡ keys.old.room }
{
    for shard in shards {
        delete_one(shard, kind, name, keys);
    }
}

/// Appends what a shard tells of the rows of a kind.
fn dump_one(shard: &Shard, kind: Kind, dump: &mut Dump)
    requires { length dump.old.items + shard.now.table.limits.rows ≤ dump.old.room }
    ensures rows { Appends (dump_of (kind_of kind) (state_of shard.now).live) (rows_of dump.old) (rows_of dump.new) }
    ensures few { length dump.new.items ≤ length dump.old.items + shard.now.table.limits.rows }
    ensures room { dump.new.room ≡ dump.old.room }
{
    // It has no more rows than its limits say, for which there is room.
    let _ = shard.rows();
    shard.dump(kind, dump);
}

/// Appends what each shard, in order, tells of the rows of a kind.
pub(crate) fn dump_all(shards: &[Shard], kind: Kind, dump: &mut Dump)
    requires bounds { GoTogether shards.now }
    requires room { length dump.old.items + length shards.now * (limits_in shards.now).rows ≤ dump.old.room }
    ensures rows { Appends (flat_map (λ s. dump_of (kind_of kind) (state_of s).live) shards.now) (rows_of dump.old) (rows_of dump.new) }
    ensures room { dump.new.room ≡ dump.old.room }
{
    for shard in shards {
        dump_one(shard, kind, dump);
    }
}
