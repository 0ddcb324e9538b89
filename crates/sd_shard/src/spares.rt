ghost use Rattle.std.specs.Prelude.{◌≡◌, ◌+◌, ◌*◌, ◌<◌, ◌≤◌, [], ◌∷◌, ◌++◌, length, map, reverse, sum_by, vec_len, vec_capacity, All, IfOk};
ghost use Rattle.sd_model_shard.specs.Shard.{Limits as ModelLimits};
ghost use Rattle.sd_epoch.specs.Limits.{limits_of, AreLimits};
ghost use Rattle.sd_shard.specs.Tables.{IsSpare, IsWithin};

use sd_epoch::{Limits, Table};
use std::alloc::{AllocError, Global};
use std::marker::Model;

/// Tables that shards are swapped for, and those that they gave, in room taken when it was opened.
///
/// A table that was swapped out comes back with its rows in place. Where shards are swapped in the same order each time, each
/// gets back the table that it gave the time before, so few of its rows have to be copied.
#[derive(Debug, Drop)]
pub struct Spares {
    limits: Limits,
    room: u16,
    spares: Vec<Table>,
    swapped: Vec<Table>,
}

impl Model for Spares {
    ghost use Rattle.sd_shard.specs.Spares.{Stock};

    ghost Value = { Stock };

    ghost use Rattle.sd_shard.specs.Inside.{stock_of, AreSpares};

    ghost view = { stock_of };

    ghost invariant = { AreSpares };
}

// So many empty tables, whose rows are found by hashes under a seed.
fn open_tables(alloc: Global, n: u16, limits: Limits, seed: u64) -> Result<Vec<Table>, AllocError>
    requires { AreLimits (limits_of limits) }
    ensures len { IfOk result (λ spares. vec_len spares ≡ n) }
    ensures room { IfOk result (λ spares. n ≤ vec_capacity spares) }
    ensures empty { IfOk result (λ spares. All (IsSpare (limits_of limits)) spares.items) }
{
    let mut spares = Vec::with_capacity(alloc, usize::from(n))?;
    for _i in 0..n {
        spares.push_reserved(Table::open(alloc, limits, seed)?);
    }
    Ok(spares)
}

// The table without its samples. Its rows stay where they are.
fn into_spare(mut table: Table) -> Table
    ensures limits { result.limits ≡ table.limits }
    ensures no_samples { result.held ≡ 0 }
    ensures no_entries { result.entries ≡ 0 }
    ensures places { result.places ≡ table.places }
{
    table.clear_samples();
    table
}

// Takes the samples out of the tables that were swapped out, and makes them spares with their rows in place. The last spare is
// then the one that was swapped out first.
fn move_back(swapped: &mut Vec<Table>, spares: &mut Vec<Table>)
    requires { vec_len spares.old + vec_len swapped.old ≤ vec_capacity spares.old }
    ensures swapped { swapped.new.items ≡ [] }
    ensures none_left { vec_len swapped.new ≡ 0 }
    ensures len { vec_len spares.new ≡ vec_len spares.old + vec_len swapped.old }
    ensures spares { (limits : ModelLimits) → All (IsSpare limits) spares.old.items → All (IsWithin limits) swapped.old.items
        → All (IsSpare limits) spares.new.items }
    ensures turned { map (λ table. table.places) spares.new.items
        ≡ map (λ table. table.places) spares.old.items ++ reverse (map (λ table. table.places) swapped.old.items) }
    ensures room { vec_capacity spares.new ≡ vec_capacity spares.old }
    ensures swapped_room { vec_capacity swapped.new ≡ vec_capacity swapped.old }
{
    while let Some(table) = swapped.pop() {
        spares.push_reserved(into_spare(table));
    }
}

impl Spares {
    /// So many empty tables with these limits, all of them spare, and room to keep as many. Their rows are found by hashes under a seed.
    ///
    /// # Errors
    ///
    /// Where no memory is left for it.
    pub fn open(alloc: Global, n: u16, limits: Limits, seed: u64) -> Result<Spares, AllocError>
        requires { AreLimits (limits_of limits) }
        ensures limits { IfOk result (λ s. s.limits ≡ limits_of limits) }
        ensures room { IfOk result (λ s. s.room ≡ n) }
        ensures waiting { IfOk result (λ s. length s.waiting ≡ n) }
        ensures swapped { IfOk result (λ s. s.swapped ≡ []) }
    {
        let spares = open_tables(alloc, n, limits, seed)?;
        let swapped = Vec::with_capacity(alloc, usize::from(n))?;
        Ok(Spares {
            limits,
            room: n,
            spares,
            swapped,
        })
    }

    /// The next spare table.
    pub fn next(&mut self) -> Table
        requires { 0 < length self.old.waiting }
        ensures places { self.old.waiting ≡ result.places ∷ self.new.waiting }
        ensures spare { IsSpare self.old.limits result }
        ensures others { self.new ≡ record self.old { waiting = self.new.waiting } }
    {
        self.spares.pop().unwrap()
    }

    /// Keeps a table that was swapped out, behind those that it has.
    pub fn keep(&mut self, table: Table)
        requires within { IsWithin self.old.limits table }
        requires room { length self.old.waiting + length self.old.swapped < self.old.room }
        ensures { self.new ≡ record self.old { swapped = self.old.swapped ++ table ∷ [] } }
    {
        self.swapped.push_reserved(table);
    }

    /// The tables that were swapped out since they were last reclaimed, in order.
    pub fn swapped(&self) -> &[Table]
        ensures tables { result.now ≡ self.now.swapped }
        ensures within { All (IsWithin self.now.limits) result.now }
        ensures rows { sum_by (λ t. length t.listed) result.now ≤ self.now.limits.rows * self.now.room }
    {
        self.swapped.as_slice()
    }

    /// Takes the samples out of the tables that were swapped out, and makes them spares with their rows in place: they come next,
    /// in the order in which they were kept.
    pub fn reclaim(&mut self)
        ensures { self.new ≡ record self.old { waiting = map (λ table. table.places) self.old.swapped ++ self.old.waiting; swapped = [] } }
    {
        move_back(&mut self.swapped, &mut self.spares);
    }
}
