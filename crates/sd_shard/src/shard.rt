ghost use Rattle.std.specs.Prelude.{◌≡◌, ◌+◌, ◌≤◌, nat_lt, not, is_some, length, option_map, IfOk, IfSome};
ghost use Rattle.std.specs.FinMap.{len};
ghost use Rattle.sd_model_shard.specs.Shard.{empty_state, is_full, full_cause, NoEntry, refusal, step, Answered, Submit, Swap, Swapped, Delete, Dump as DumpOf};
ghost use Rattle.sd_model_shard.specs.Rows.{is_listed};
ghost use Rattle.sd_key.specs.Kind.{kind_of};
ghost use Rattle.sd_epoch.specs.Limits.{limits_of, AreLimits};
ghost use Rattle.sd_epoch.specs.Table.{table_of};
ghost use Rattle.sd_shard.specs.Policy.{policy_of};
ghost use Rattle.sd_shard.specs.Dump.{rows_of};
ghost use Rattle.sd_shard.specs.Shard.{state_of, cause_of, placed_of, IsDeletion, IsDump, IsInRange};
ghost use Rattle.sd_shard.specs.Swap.{swap_steps};

use crate::commands::{names_no_row, push_keys, push_rows};
use crate::dump::Dump;
use crate::keep_rows::keep_rows;
use crate::keys::Keys;
use crate::policy::Policy;
use arrayvec::ArrayVec;
use sd_epoch::{Limits, Table};
use sd_key::{Kind, Pattern};
use sd_line::Sample;
use sd_rows::Steps;
use std::alloc::{AllocError, Global};
use std::marker::Model;
use std::mem;
use std::sync::ledger::Ledger;

/// Where the numbers of a shard end.
const LAST_NUMBER: u64 = 1 << 63;

/// How many samples a shard may sum up where sums are made on arrival.
const LAST_SUMMED: u64 = 1 << 37;

/// Why a sample wasn't taken, with what was compared.
#[derive(Clone, Copy, Debug, PartialEq, Eq)]
pub enum Cause {
    /// Its row isn't there, and there are as many rows as the limit says.
    NoRow { live: u32, limit: u32 },
    /// There are as many entries as the limit says.
    NoEntry { entries: u64, limit: u32 },
    /// As many samples are summed up as there may be.
    NoSum { summed: u64, limit: u64 },
    /// No number is left.
    NoNumber { taken: u64 },
}

/// What became of a sample.
#[derive(Clone, Copy, Debug, PartialEq, Eq)]
pub enum Placed {
    /// It was taken, and has this number in the shard.
    Taken { number: u64 },
    /// It was dropped. Nothing but the number of drops changed.
    Dropped(Cause),
}

/// What a deletion took out: so many rows, and so many samples of theirs.
#[derive(Clone, Copy, Debug, PartialEq, Eq)]
pub struct Deleted {
    pub rows: u32,
    pub samples: u64,
}

/// The numbers of a shard: samples but for `rows`.
#[derive(Clone, Copy, Debug, Default, PartialEq, Eq)]
pub struct ShardBook {
    pub rows: u32,
    pub taken: u64,
    pub flushed: u64,
    pub deleted: u64,
    pub dropped: u64,
    pub held: u64,
}

/// The numbers of shards, in their order.
pub type Books = ArrayVec<ShardBook, 16>;

/// Rows with what came to them, behind one turn. One event at a time changes it.
#[derive(Debug, Drop)]
pub struct Shard {
    policy: Policy,
    table: Table,
    taken: u64,
    flushed: u64,
    deleted: u64,
    dropped: u64,
}

impl Model for Shard {
    ghost use Rattle.sd_shard.specs.Shard.{Standing};

    ghost Value = { Standing };

    ghost use Rattle.sd_shard.specs.ShardInside.{standing_of, IsShard};

    ghost view = { standing_of };

    ghost invariant = { IsShard };
}

/// Whether the samples of a kind are listed.
fn is_listed(kind: Kind) -> bool
    ensures { result ≡ is_listed (kind_of kind) }
{
    matches!(kind, Kind::Timer | Kind::Set)
}

/// Why there is no room for one more entry, where there is none.
fn no_entry(entries: u64, limit: u32) -> Option<Cause>
    ensures full { is_some result ≡ not (nat_lt entries limit) }
    ensures cause { IfSome result (λ cause. cause_of cause ≡ NoEntry entries limit) }
{
    if entries < u64::from(limit) {
        None
    } else {
        Some(Cause::NoEntry { entries, limit })
    }
}

impl Shard {
    /// An empty shard, whose rows are found by hashes under a seed. All of its room is taken here.
    pub fn open(
        alloc: Global,
        limits: Limits,
        policy: Policy,
        seed: u64,
    ) -> Result<Shard, AllocError>
        requires { AreLimits (limits_of limits) }
        ensures state { IfOk result (λ s. state_of s ≡ empty_state) }
        ensures limits { IfOk result (λ s. s.table.limits ≡ limits_of limits) }
        ensures policy { IfOk result (λ s. s.policy ≡ policy_of policy) }
    {
        Ok(Shard {
            policy,
            table: Table::open(alloc, limits, seed)?,
            taken: 0,
            flushed: 0,
            deleted: 0,
            dropped: 0,
        })
    }

    /// Why there is no room for one more sample of a kind, where there is none.
    fn full(&self, kind: Kind) -> Option<Cause>
        ensures full { is_some result ≡ is_full self.now.table.limits (state_of self.now) self.now.table.limits.sums_on_arrival (is_listed (kind_of kind)) }
        ensures cause { IfSome result (λ cause. cause_of cause ≡ full_cause self.now.table.limits (state_of self.now) self.now.table.limits.sums_on_arrival (is_listed (kind_of kind))) }
        ensures counted { self.now.table.entries ≤ self.now.table.held }
        ensures within { self.now.table.entries ≤ self.now.table.limits.entries }
        ensures range { AreLimits self.now.table.limits }
    {
        let limits = self.table.limits();
        let held = self.table.held();
        let listed = u64::from(self.table.entries());
        if !limits.sums_on_arrival {
            return no_entry(held, limits.entries);
        }
        if is_listed(kind) {
            return no_entry(listed, limits.entries);
        }
        let summed = held.saturating_sub(listed);
        if summed < LAST_SUMMED {
            return None;
        }
        Some(Cause::NoSum {
            summed,
            limit: LAST_SUMMED,
        })
    }

    /// Why a sample doesn't fit, where it doesn't.
    fn refusal(&self, s: &Sample) -> Option<Cause>
        ensures refusal { option_map cause_of result ≡ refusal self.now.table.limits (state_of self.now) s.now }
        ensures counted { self.now.table.entries ≤ self.now.table.held }
        ensures within { self.now.table.entries ≤ self.now.table.limits.entries }
        ensures range { AreLimits self.now.table.limits }
    {
        let full = self.full(s.kind);
        let limits = self.table.limits();
        let live = self.table.rows();
        // (a row is searched for only where there is no room for another)
        if live >= limits.rows && !self.table.has_row(s.kind, &s.key) {
            return Some(Cause::NoRow {
                live,
                limit: limits.rows,
            });
        }
        if let Some(cause) = full {
            return Some(cause);
        }
        if self.taken >= LAST_NUMBER {
            return Some(Cause::NoNumber { taken: self.taken });
        }
        None
    }

    /// Takes a sample, or drops it where the shard is full.
    pub fn sample(&mut self, s: &Sample) -> Placed
        ensures state { state_of self.new
            ≡ (step self.old.table.limits self.old.policy (state_of self.old) (Submit s.now)).state }
        ensures answer { Answered (placed_of result)
            ≡ (step self.old.table.limits self.old.policy (state_of self.old) (Submit s.now)).reply }
        ensures limits { self.new.table.limits ≡ self.old.table.limits }
        ensures policy { self.new.policy ≡ self.old.policy }
    {
        if let Some(cause) = self.refusal(s) {
            self.dropped = self.dropped.saturating_add(1).min(LAST_NUMBER);
            return Placed::Dropped(cause);
        }
        let number = self.taken;
        self.table.sample(s);
        self.taken += 1;
        Placed::Taken { number }
    }

    /// Hands out the table, and goes on with the spare one and the rows that stay.
    ///
    /// Rows that the spare table has in their places are left there, so it takes at most one step for each row that is kept to a place
    /// at which the spare table doesn't have that kind and key.
    pub fn swap<L: Ledger>(&mut self, spare: Table, steps: &mut Steps<L>) -> Table
        requires limits { spare.limits ≡ self.old.table.limits }
        requires no_samples { spare.held ≡ 0 }
        requires no_entries { spare.entries ≡ 0 }
        ensures table { Swapped (table_of result)
            ≡ (step self.old.table.limits self.old.policy (state_of self.old) Swap).reply }
        ensures table_limits { result.limits ≡ self.old.table.limits }
        ensures table_rows { length result.listed ≤ result.limits.rows }
        ensures table_entries { result.entries ≤ result.limits.entries }
        ensures state { state_of self.new
            ≡ (step self.old.table.limits self.old.policy (state_of self.old) Swap).state }
        ensures limits { self.new.table.limits ≡ self.old.table.limits }
        ensures policy { self.new.policy ≡ self.old.policy }
        ensures steps { steps.new ≤ steps.old + swap_steps self.old.policy self.old.table spare }
    {
        let table = mem::replace(&mut self.table, spare);
        keep_rows(&table, &self.policy, &mut self.table, steps);
        self.flushed += table.held();
        table
    }

    /// Takes the rows of a kind that a pattern matches out, with all their samples, and appends their keys.
    pub fn delete(&mut self, kind: Kind, pattern: &Pattern, out: &mut Keys) -> Deleted
        requires { length out.old.items + length self.old.table.listed ≤ out.old.room }
        ensures state { state_of self.new
            ≡ (step self.old.table.limits self.old.policy (state_of self.old) (Delete (kind_of kind) pattern.now)).state }
        ensures answer { IsDeletion (step self.old.table.limits self.old.policy (state_of self.old) (Delete (kind_of kind) pattern.now)).reply
            out.old.items out.new.items result }
        ensures few { length out.new.items ≤ length out.old.items + self.old.table.limits.rows }
        ensures room { out.new.room ≡ out.old.room }
        ensures limits { self.new.table.limits ≡ self.old.table.limits }
        ensures policy { self.new.policy ≡ self.old.policy }
    {
        let nothing = Deleted {
            rows: 0,
            samples: 0,
        };
        if names_no_row(&self.table, kind, pattern) {
            return nothing;
        }
        let rows = push_keys(&self.table, kind, pattern, out);
        if rows == 0 {
            return nothing;
        }
        let samples = self.table.forget_rows(kind, pattern);
        self.deleted += samples;
        Deleted { rows, samples }
    }

    /// Appends each row of a kind with what its samples come to.
    pub fn dump(&self, kind: Kind, out: &mut Dump)
        requires { length out.old.items + length self.now.table.listed ≤ out.old.room }
        ensures state { state_of self.now
            ≡ (step self.now.table.limits self.now.policy (state_of self.now) (DumpOf (kind_of kind))).state }
        ensures answer { IsDump (step self.now.table.limits self.now.policy (state_of self.now) (DumpOf (kind_of kind))).reply
            (rows_of out.old) (rows_of out.new) }
        ensures few { length out.new.items ≤ length out.old.items + self.now.table.limits.rows }
        ensures room { out.new.room ≡ out.old.room }
    {
        push_rows(&self.table, kind, out);
    }

    /// How many rows it has.
    pub fn rows(&self) -> u32
        ensures listed { result ≡ length self.now.table.listed }
        ensures within { result ≤ self.now.table.limits.rows }
    {
        self.table.rows()
    }

    /// The numbers as they stand.
    pub fn book(&self) -> ShardBook
        ensures rows { result.rows ≡ len (state_of self.now).live }
        ensures taken { result.taken ≡ (state_of self.now).taken }
        ensures flushed { result.flushed ≡ (state_of self.now).flushed }
        ensures deleted { result.deleted ≡ (state_of self.now).deleted }
        ensures dropped { result.dropped ≡ (state_of self.now).dropped }
        ensures held { result.held ≡ (state_of self.now).held }
        ensures conserved { result.taken ≡ result.flushed + result.deleted + result.held }
        ensures range { IsInRange result }
    {
        ShardBook {
            rows: self.table.rows(),
            taken: self.taken,
            flushed: self.flushed,
            deleted: self.deleted,
            dropped: self.dropped,
            held: self.table.held(),
        }
    }
}
