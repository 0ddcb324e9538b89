ghost use Rattle.std.specs.Prelude.{◌≡◌, ◌<◌, ◌≤◌, length, map, sum_by, All, slice_get, Some};
ghost use Rattle.sd_model_record.specs.Record.{record_of};
ghost use Rattle.sd_plan.specs.Plan.{plan_view};
ghost use Rattle.sd_epoch.specs.Table.{table_of};
ghost use Rattle.sd_record.specs.Placed.{AreInOrder};
ghost use Rattle.sd_record.specs.Row.{row_view};
ghost use Rattle.sd_record.specs.Rows.{AreDisjoint};
ghost use Rattle.sd_desk.specs.Tally.{tally_of};

use crate::row::Row;
use crate::scratch::RecordScratch;
use sd_desk::Tally;
use sd_epoch::Table;
use sd_plan::{Calculated, Reckoning};

/// The record of a flush: the rows of tables by kind and key, the tally, the Unix second, the interval that the rates are
/// over, and the classes of timers' lines that are chosen. Contracts see it through `record_view`.
#[derive(Drop)]
pub struct Record<'a> {
    tables: &'a [Table],
    plan: &'a Reckoning,
    scratch: &'a mut RecordScratch,
    tally: Tally,
    ts: u64,
    ghost kept: { AreInOrder (plan_view plan.now) tables.now scratch.now },
}

impl<'a> Record<'a> {
    ghost use Rattle.sd_record.specs.Record.{record_view, room_of, Borrows, SameScratch};

    /// The record of the rows of tables, which are put in order in the scratch. No memory is taken. The scratch is free
    /// again where the record ends, and has its room then.
    pub fn over(
        tables: &'a [Table],
        plan: &'a Reckoning,
        scratch: &'a mut RecordScratch,
        tally: Tally,
        ts: u64,
    ) -> Record<'a>
        requires rows { sum_by (λ t. length t.listed) tables.now ≤ scratch.old.room.rows }
        requires entries { All (λ t. t.entries ≤ scratch.old.room.entries) tables.now }
        requires disjoint { AreDisjoint tables.now }
        ensures record { record_view result
            ≡ record_of (plan_view plan.now) (map table_of tables.now) (tally_of tally) ts }
        ensures room { room_of result ≡ scratch.old.room }
        ensures same_scratch { Borrows result scratch.entry }
    {
        scratch.fill(tables);
        Record {
            tables,
            plan,
            scratch,
            tally,
            ts,
        }
    }

    /// How many rows it has.
    pub fn rows(&self) -> usize
        ensures { result ≡ length (record_view self.now).rows }
    {
        self.scratch.len()
    }

    /// The i-th row.
    pub fn row(&mut self, i: usize) -> Row
        requires { i < length (record_view self.old).rows }
        ensures row { slice_get (record_view self.old).rows i ≡ Some (row_view result) }
        ensures record { record_view self.new ≡ record_view self.old }
        ensures room { room_of self.new ≡ room_of self.old }
        ensures same_scratch { SameScratch self.new self.old }
    {
        let mut row = Row::new();
        self.put_row(i, &mut row);
        row
    }

    /// Puts the i-th row into `row`, in place of what it has.
    pub fn put_row(&mut self, i: usize, row: &mut Row)
        requires { i < length (record_view self.old).rows }
        ensures row { slice_get (record_view self.old).rows i ≡ Some (row_view row.new) }
        ensures record { record_view self.new ≡ record_view self.old }
        ensures room { room_of self.new ≡ room_of self.old }
        ensures same_scratch { SameScratch self.new self.old }
    {
        self.scratch.put_row(i, self.tables, self.plan, row);
    }

    /// The Unix second of the flush.
    pub fn ts(&self) -> u64
        ensures { result ≡ (record_view self.now).ts }
    {
        self.ts
    }

    /// What was counted since the last flush.
    pub fn tally(&self) -> Tally
        ensures { tally_of result ≡ (record_view self.now).tally }
    {
        self.tally
    }

    /// The interval that the rates are over, in milliseconds, which isn't 0.
    pub fn interval_ms(&self) -> u32
        ensures value { result ≡ (record_view self.now).interval_ms }
        ensures some { 0 < result }
    {
        self.plan.interval_ms
    }

    /// The classes of timers' lines that are chosen.
    pub fn calculated(&self) -> &'a Calculated
        ensures { result.now ≡ (record_view self.now).calculated }
    {
        &self.plan.calculated
    }
}
