ghost use Rattle.std.specs.Prelude.{◌≡◌, ◌<◌, ◌≤◌, [], length, map, slice_get, Some, sum_by, All, IfOk};
ghost use Rattle.std.specs.List.Sorted.{IsPermutation, IsSortedByKey};
ghost use Rattle.sd_model_shard.specs.Rows.{row_cmp};
ghost use Rattle.sd_plan.specs.Plan.{plan_view};
ghost use Rattle.sd_epoch.specs.Limits.{limits_of, AreLimits};
ghost use Rattle.sd_epoch.specs.Table.{AreApart};
ghost use Rattle.sd_record.specs.Placed.{row_at, id_at, value_at, IsPlaced};
ghost use Rattle.sd_record.specs.Room.{room_for};
ghost use Rattle.sd_record.specs.Row.{row_view};
ghost use Rattle.sd_record.specs.Rows.{all_rows};

use crate::placed::{Place, are_in_order, compare, place_all};
use crate::row::Row;
use crate::values::put_row;
use sd_epoch::{Limits, Scratch, Table};
use sd_plan::Reckoning;
use std::alloc::{AllocError, Global};
use std::marker::Model;

/// The places of a record's rows in order, and room for the values and members of one, in room taken when it was opened.
#[derive(Debug, Drop)]
pub struct RecordScratch {
    places: Vec<Place>,
    gathered: Scratch,
}

impl Model for RecordScratch {
    ghost use Rattle.sd_record.specs.Placed.{Places};

    ghost Value = { Places };

    ghost use Rattle.sd_record.specs.ScratchInside.{scratch_view};

    ghost view = { scratch_view };
}

impl RecordScratch {
    /// Room for the rows of so many shards with these limits, and for the entries of one of them.
    ///
    /// # Errors
    ///
    /// Where no memory is left for it.
    pub fn open(alloc: Global, limits: Limits, shards: u16) -> Result<RecordScratch, AllocError>
        requires limits { AreLimits (limits_of limits) }
        requires some { 0 < shards }
        requires few { shards ≤ 16 }
        ensures room { IfOk result (λ s. s.room ≡ room_for (limits_of limits) shards) }
        ensures empty { IfOk result (λ s. s.placed ≡ []) }
    {
        Ok(RecordScratch {
            places: Vec::with_capacity(alloc, limits.rows as usize * usize::from(shards))?,
            gathered: Scratch::open(alloc, limits)?,
        })
    }

    /// Puts the rows of tables in order, in place of those that were there. Places that still are those of all rows in order
    /// stay as they are.
    pub(crate) fn fill(&mut self, tables: &[Table])
        requires { sum_by (λ t. length t.listed) tables.now ≤ self.old.room.rows }
        ensures rows { IsPermutation (map Some (all_rows tables.now)) (map (row_at tables.now) self.new.placed) }
        ensures order { IsSortedByKey (id_at tables.now) row_cmp self.new.placed }
        ensures apart { All (λ t. AreApart t.listed) tables.now }
        ensures room { self.new.room ≡ self.old.room }
    {
        if are_in_order(tables, &self.places) {
            return;
        }
        place_all(tables, &mut self.places);
        self.places.sort_unstable_by(|a, b| compare(tables, *a, *b));
    }

    /// How many rows stand there.
    pub(crate) fn len(&self) -> usize
        ensures { result ≡ length self.now.placed }
    {
        self.places.len()
    }

    /// Puts the i-th row, as a record has it, into `row`, in place of what it has.
    pub(crate) fn put_row(&mut self, i: usize, tables: &[Table], plan: &Reckoning, row: &mut Row)
        requires row { i < length self.old.placed }
        requires placed { All (IsPlaced tables.now) self.old.placed }
        requires room { All (λ t. t.entries ≤ self.old.room.entries) tables.now }
        ensures row { slice_get (map (value_at (plan_view plan.now) tables.now) self.old.placed) i ≡ Some (row_view row.new) }
        ensures same { self.new ≡ self.old }
    {
        let place = self.places[i];
        put_row(
            &tables[place.table],
            place.row,
            plan,
            &mut self.gathered,
            row,
        );
    }
}
