ghost use Rattle.std.specs.Prelude.{◌≡◌, ◌<◌};
ghost use Rattle.sd_model_shard.specs.Shard.{after_swap, table_of as handed_out};
ghost use Rattle.sd_epoch.specs.Table.{table_of};
ghost use Rattle.sd_shard.specs.Shard.{state_of};
ghost use Rattle.sd_shard.specs.Tables.{IsSpare, IsWithin};

use crate::Shard;
use sd_epoch::Table;
use sd_rows::Steps;
use std::marker::Brand;
use std::sync::ledger::{Blank, Ledger};

// Swaps a shard, with steps that are counted in a ledger of their own.
fn swap_counted<L: Ledger>(shard: &mut Shard, spare: Table, blank: Blank) -> Table
    requires spare { IsSpare shard.old.table.limits spare }
    requires name { blank.name ≡ L.name }
    requires parts { blank.parts ≡ L.parts }
    requires some { 0 < blank.parts }
    ensures table { table_of result ≡ handed_out (state_of shard.old) }
    ensures within { IsWithin shard.old.table.limits result }
    ensures state { state_of shard.new ≡ after_swap shard.old.policy (state_of shard.old) }
    ensures limits { shard.new.table.limits ≡ shard.old.table.limits }
    ensures policy { shard.new.policy ≡ shard.old.policy }
{
    let mut steps: Steps<L> = Steps::new(blank);
    shard.swap(spare, &mut steps)
}

/// Swaps a shard for a spare table, and answers the table that it gives.
pub fn swap_shard(shard: &mut Shard, spare: Table) -> Table
    requires { IsSpare shard.old.table.limits spare }
    ensures table { table_of result ≡ handed_out (state_of shard.old) }
    ensures within { IsWithin shard.old.table.limits result }
    ensures state { state_of shard.new ≡ after_swap shard.old.policy (state_of shard.old) }
    ensures limits { shard.new.table.limits ≡ shard.old.table.limits }
    ensures policy { shard.new.policy ≡ shard.old.policy }
{
    swap_counted::<Brand>(shard, spare, Blank::new(1))
}
