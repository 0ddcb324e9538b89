//! The value behind a turn: a shard that has rows of its own keys alone.
ghost use Rattle.std.specs.Prelude.{◌≡◌, ◌+◌, ◌<◌, ◌≤◌, [], length, refl, IfOk};
ghost use Rattle.sd_model_text.specs.Names.{shard};
ghost use Rattle.sd_model_shard.specs.Shard.{Answered, Looked, Swapped, Submit, Swap, Delete, Dump as DumpOf, Look};
ghost use Rattle.sd_key.specs.Kind.{kind_of};
ghost use Rattle.sd_epoch.specs.Limits.{limits_of, AreLimits};
ghost use Rattle.sd_epoch.specs.Table.{table_of};
ghost use Rattle.sd_shard.specs.Dump.{rows_of};
ghost use Rattle.sd_shard.specs.Policy.{policy_of};
ghost use Rattle.sd_shard.specs.Shard.{numbers_in, placed_of, state_of};
ghost use Rattle.sd_pool.specs.Setup.{who_of};
ghost use Rattle.sd_pool.specs.Behind.{setup_of, Stands, Steps as IsStep};
ghost use Rattle.sd_shard.specs.Tables.{IsSpare};

use crate::noted::Noted;
use crate::setup::Setup;
use sd_batch::{Counts, Run, take_run};
use sd_epoch::{Limits, Table, Who};
use sd_key::{Kind, Pattern};
use sd_line::Sample;
use sd_shard::{Deleted, Dump, Keys, Placed, Policy, Shard, ShardBook, swap_shard};
use sd_turn::Stepped;
use std::alloc::{AllocError, Global};
use std::marker::Model;

/// The caller that is the flusher.
const FLUSHER: u16 = 100;

/// The caller that is the admin.
const ADMIN: u16 = 101;

/// The caller that a seat's number stands for: a receiver by its number, then the flusher, then the admin.
pub(crate) fn caller(receivers: u16, number: u16) -> Who
    ensures { result.0 ≡ who_of receivers number }
{
    if number < receivers {
        Who(number)
    } else if number == receivers {
        Who(FLUSHER)
    } else {
        Who(ADMIN)
    }
}

/// A shard with rows of its own keys alone, its number among the shards, and how many receivers there are.
#[derive(Drop)]
pub struct ShardValue {
    shard: Shard,
    number: u16,
    shards: u16,
    receivers: u16,
}

impl Model for ShardValue {
    ghost use Rattle.sd_pool.specs.Behind.{Behind};

    ghost Value = { Behind };

    ghost use Rattle.sd_pool.specs.BehindInside.{behind_in, HasOwnRows};

    ghost view = { behind_in };

    ghost invariant = { HasOwnRows };
}

impl ShardValue {
    ghost use Rattle.sd_pool.specs.Books.{IsBookOf};
    ghost use Rattle.std.specs.Prelude.{ℕ};
    ghost use Rattle.sd_batch.specs.Runs.{CountsRun};
    ghost use Rattle.sd_pool.specs.Asks.{AreOf, Runs, made_by};
    ghost use Rattle.sd_pool.specs.Asks.{gone_of, shown_of, IsOwnTable, KeysGoOn, RowsGoOn};

    /// An empty shard of this number, whose rows are found by hashes under a seed.
    pub(crate) fn open(
        alloc: Global,
        limits: Limits,
        policy: Policy,
        number: u16,
        shards: u16,
        receivers: u16,
        seed: u64,
    ) -> Result<ShardValue, AllocError>
        requires { AreLimits (limits_of limits) }
        ensures setup { IfOk result (λ v. setup_of v ≡ record { limits = limits_of limits; policy = policy_of policy; shard = number; shards = shards; receivers = receivers }) }
        ensures empty { IfOk result (λ v. Stands v []) }
    {
        Ok(ShardValue {
            shard: Shard::open(alloc, limits, policy, seed)?,
            number,
            shards,
            receivers,
        })
    }

    /// The numbers as they stand.
    pub(crate) fn book(&self) -> ShardBook
        ensures { IsBookOf result (state_of self.now.shard) }
    {
        self.shard.book()
    }

    pub(crate) fn sample(&mut self, s: &Sample) -> Placed
        requires own { shard s.now.key self.old.shards ≡ self.old.number }
        ensures step { IsStep self.old self.new (Submit s.now) (Answered (placed_of result)) }
    {
        self.shard.sample(s)
    }

    // Takes or drops the samples of a run, one after another.
    pub(crate) fn run(&mut self, run: Run<'_>) -> Counts
        requires own { AreOf self.old.number self.old.shards run }
        requires few { length run < 65536 }
        ensures runs { Runs self.old self.new run.entry }
        ensures counted { (who : ℕ) → CountsRun result (made_by (setup_of self.old) who self.old run.entry) }
    {
        take_run(&mut self.shard, run)
    }

    pub(crate) fn delete(&mut self, kind: Kind, pattern: &Pattern, out: &mut Keys) -> Deleted
        requires room { length out.old.items + self.old.shard.table.limits.rows ≤ out.old.room }
        ensures step { IsStep self.old self.new (Delete (kind_of kind) pattern.now) (gone_of out.old.items out.new.items result) }
        ensures out { KeysGoOn (setup_of self.old) out.old out.new result }
    {
        // It has no more rows than its limits say, for which there is room.
        let _ = self.shard.rows();
        self.shard.delete(kind, pattern, out)
    }

    pub(crate) fn dump(&mut self, kind: Kind, out: &mut Dump)
        requires room { length out.old.items + self.old.shard.table.limits.rows ≤ out.old.room }
        ensures step { IsStep self.old self.new (DumpOf (kind_of kind)) (shown_of (rows_of out.old) (rows_of out.new)) }
        ensures out { RowsGoOn (setup_of self.old) out.old out.new }
    {
        // It has no more rows than its limits say, for which there is room.
        let _ = self.shard.rows();
        self.shard.dump(kind, out);
    }

    pub(crate) fn look(&self) -> ShardBook
        ensures { IsStep self.now self.now Look (Looked (numbers_in result)) }
    {
        self.shard.book()
    }

    pub(crate) fn swap(&mut self, spare: Table) -> Table
        requires spare { IsSpare self.old.shard.table.limits spare }
        ensures step { IsStep self.old self.new Swap (Swapped (table_of result)) }
        ensures table { IsOwnTable (setup_of self.old) result }
    {
        swap_shard(&mut self.shard, spare)
    }
}

impl Stepped for ShardValue {
    type Noted = Noted;

    type Fixed = Setup;

    ghost use Rattle.sd_pool.specs.Noted.{IsLegal};

    ghost fixed = { setup_of };

    ghost seats = { λ setup. setup.receivers + 2 };

    ghost legal = { IsLegal };

    ghost stands = { Stands };

    ghost who = { λ n. n.number };

    ghost stands_legal = { λ v log stands. stands.legal };
}
