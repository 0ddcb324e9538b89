ghost use Rattle.std.specs.Prelude.{◌≡◌, ◌+◌, ◌-◌, ◌*◌, ◌^◌, ◌<◌, ◌≤◌, ◌≢◌, unsigned_abs, slice_get, true, false, if◌then◌else◌, [], length, map, set, option_map, IfOk, IfSome, MatchOption, Some, None};
ghost use Rattle.std.specs.FinMap.{len, contains_key, get, insert, remove};
ghost use Rattle.sd_model_text.specs.Names.{Timer};
ghost use Rattle.sd_model_shard.specs.Rows.{RowId, row_of, rows_left, rows_taken_out, amount_by, is_listed, row_in, samples_in, touched, without_samples, samples_where};
ghost use Rattle.sd_key.specs.Kind.{kind_of};
ghost use Rattle.sd_rows.specs.Rows.{row_at, row_seen, StandsNowhereElse, reset};
ghost use Rattle.sd_rows.specs.RowMap.{copy_steps};
ghost use Rattle.sd_epoch.specs.Limits.{limits_of, AreLimits};
ghost use Rattle.sd_epoch.specs.Scratch.{micros, texts, AreTimerValues};
ghost use Rattle.sd_epoch.specs.Table.{live_of, AreApart, HasPlaces, fresh, freshened, most_held, row_view, id_of, Tells};

use crate::forget::{close_up, drop_hits, drop_row, empty_at, samples_at};
use crate::limits::Limits;
use crate::members::Members;
use crate::order::Order;
use crate::placing::{add_row, clear_tallies, keep_in, list, live_row, touch};
use crate::scratch::Scratch;
use crate::tally::{gauge_sum, with_sample};
use crate::values::Values;
use sd_decimal::{Micro, Sum};
use sd_key::{Key, Kind, Pattern};
use sd_line::Sample;
use sd_rows::{RowView, Rows, Steps, Tally};
use std::alloc::{AllocError, Global};
use std::marker::Model;
use std::sync::ledger::Ledger;

/// What a table says of one of its rows.
#[derive(Debug, Drop)]
pub struct RowFacts {
    pub kind: Kind,
    pub key: Key,
    pub base: Micro,
    pub swaps: u32,
    pub samples: u64,
    pub weight: Sum,
}

/// The rows of one epoch of a shard, each with what its samples come to, in room taken when it was opened.
///
/// `order` has the places of the rows, and the rank of each. `rows` has each row's tally beside it. The values of timers and the
/// members of sets stand apart, and so a counter's and a gauge's sample takes no room of its own.
#[derive(Debug, Drop)]
pub struct Table {
    limits: Limits,
    rows: Rows,
    order: Order,
    values: Values,
    members: Members,
    held: u64,
}

impl Model for Table {
    ghost use Rattle.sd_epoch.specs.Table.{Listing};

    ghost Value = { Listing };

    ghost use Rattle.sd_epoch.specs.TableInside.{listing_of, IsTable};

    ghost view = { listing_of };

    ghost invariant = { IsTable };
}

impl Table {
    /// An empty table with room for as many rows and entries as the limits say, whose rows are found by hashes under a seed.
    pub fn open(alloc: Global, limits: Limits, seed: u64) -> Result<Table, AllocError>
        requires { AreLimits (limits_of limits) }
        ensures limits { IfOk result (λ t. t.limits ≡ limits_of limits) }
        ensures rows { IfOk result (λ t. t.listed ≡ []) }
        ensures held { IfOk result (λ t. t.held ≡ 0) }
        ensures entries { IfOk result (λ t. t.entries ≡ 0) }
    {
        Ok(Table {
            limits,
            rows: Rows::open(alloc, limits.rows, seed)?,
            order: Order::open(alloc, limits.rows)?,
            values: Values::open(alloc, limits)?,
            members: Members::open(alloc, limits)?,
            held: 0,
        })
    }

    /// The limits that it was opened for.
    pub fn limits(&self) -> Limits
        ensures limits { limits_of result ≡ self.now.limits }
        ensures range { AreLimits self.now.limits }
        ensures places { HasPlaces self.now }
    {
        self.limits
    }

    /// How many rows it has.
    pub fn rows(&self) -> u32
        ensures listed { result ≡ length self.now.listed }
        ensures live { result ≡ len (live_of self.now) }
        ensures apart { AreApart self.now.listed }
        ensures within { result ≤ self.now.limits.rows }
    {
        self.order.places.len() as u32
    }

    /// How many samples its rows have together.
    pub fn held(&self) -> u64
        ensures held { result ≡ self.now.held }
        ensures samples { self.now.held ≡ samples_in (live_of self.now) }
        ensures within { result ≤ most_held }
        ensures few_rows { length self.now.listed ≤ self.now.limits.rows }
        ensures few_entries { self.now.entries ≤ self.now.limits.entries }
    {
        self.held
    }

    /// How many of them have an entry: those of timers and sets.
    pub fn entries(&self) -> u32
        ensures entries { result ≡ self.now.entries }
        ensures listed { self.now.entries ≡ samples_where (λ id. is_listed id.kind) (live_of self.now) }
        ensures within { result ≤ self.now.limits.entries }
    {
        (self.values.items.len() + self.members.items.len()) as u32
    }

    /// Whether it has the row.
    pub fn has_row(&self, kind: Kind, key: &Key) -> bool
        ensures { result ≡ contains_key (live_of self.now) (id_of kind key.now) }
    {
        self.rows.find(kind, key).is_some()
    }

    /// What it says of its i-th row, in some order.
    pub fn row(&self, i: u32) -> RowFacts
        requires { i < length self.now.listed }
        ensures listed { IfSome (slice_get self.now.listed i) (Tells result) }
        ensures bound { unsigned_abs result.weight.0 ≤ most_held * 10 ^ 24 }
    {
        let place = self.order.places[i as usize];
        let row = live_row(&self.rows, place);
        facts_of(&row, self.rows.tally(place))
    }

    /// Its i-th row, in some order.
    pub fn get(&self, i: u32) -> RowView<'_>
        requires { i < length self.now.listed }
        ensures { IfSome (slice_get self.now.listed i) (λ row. (row.0, fresh row.1) ≡ row_view (row_seen result)) }
    {
        live_row(&self.rows, self.order.places[i as usize])
    }

    /// The value of its i-th row as a gauge.
    pub fn gauge_of(&self, i: u32) -> Micro
        requires { i < length self.now.listed }
        ensures { IfSome (slice_get self.now.listed i) (λ row. result.0 ≡ row.1.since.gauge) }
    {
        self.rows.tally(self.order.places[i as usize]).gauge
    }

    /// Puts the values of its i-th row's samples into the scratch, in the order in which they came.
    pub fn values_of(&self, i: u32, out: &mut Scratch)
        requires place { i < length self.now.listed }
        requires room { self.now.entries ≤ out.old.room }
        ensures values { IfSome (slice_get self.now.listed i) (λ row. micros out.new.values ≡ row.1.since.values) }
        ensures range { AreTimerValues out.new.values }
        ensures few { length out.new.values ≤ 2 ^ 20 }
        ensures members { out.new.members ≡ out.old.members }
        ensures room { out.new.room ≡ out.old.room }
    {
        out.put_values(&self.values, self.order.places[i as usize]);
    }

    /// Puts the members of its i-th row's samples into the scratch, in the order in which they came.
    pub fn members_of(&self, i: u32, out: &mut Scratch)
        requires place { i < length self.now.listed }
        requires room { self.now.entries ≤ out.old.room }
        ensures members { IfSome (slice_get self.now.listed i) (λ row. texts out.new.members ≡ row.1.since.members) }
        ensures values { out.new.values ≡ out.old.values }
        ensures room { out.new.room ≡ out.old.room }
    {
        out.put_members(&self.members, self.order.places[i as usize]);
    }

    /// What the samples of its i-th row come to: a counter's count, the sum of a timer's values, a gauge's value, or how
    /// many members of a set differ, as whole units. For a timer it takes time with its samples, and for a set with their square.
    pub fn amount_of(&self, i: u32) -> Sum
        requires { i < length self.now.listed }
        ensures { IfSome (slice_get self.now.listed i) (λ row. result.0 ≡ amount_by row.0.kind row.1.since) }
    {
        let place = self.order.places[i as usize];
        let tally = self.rows.tally(place);
        match live_row(&self.rows, place).kind {
            Kind::Counter => tally.weight,
            Kind::Timer => self.values.sum_at(place),
            Kind::Gauge => gauge_sum(tally),
            Kind::Set => self.members.distinct_sum(place),
        }
    }

    /// Takes a row out, and answers how many samples it had: 0 where it is absent.
    pub fn forget_row(&mut self, kind: Kind, key: &Key) -> u64
        ensures live { live_of self.new ≡ remove (live_of self.old) (id_of kind key.now) }
        ensures samples { result ≡ (row_in (live_of self.old) (id_of kind key.now)).since.samples }
        ensures held { self.new.held + result ≡ self.old.held }
        ensures limits { self.new.limits ≡ self.old.limits }
    {
        drop_row(&mut self.rows, kind, key);
        close_up(
            &self.rows,
            &mut self.order,
            &mut self.values,
            &mut self.members,
        );
        let before = self.held;
        self.held = samples_at(&self.order.places, &self.rows);
        before - self.held
    }

    /// Takes the rows of a kind that a pattern matches out, and answers how many samples they had.
    pub fn forget_rows(&mut self, kind: Kind, pattern: &Pattern) -> u64
        ensures live { live_of self.new ≡ rows_left (kind_of kind) pattern.now (live_of self.old) }
        ensures samples { result ≡ samples_in (rows_taken_out (kind_of kind) pattern.now (live_of self.old)) }
        ensures held { self.new.held + result ≡ self.old.held }
        ensures entries { self.new.entries + samples_where (λ id. is_listed id.kind) (rows_taken_out (kind_of kind) pattern.now (live_of self.old)) ≡ self.old.entries }
        ensures limits { self.new.limits ≡ self.old.limits }
    {
        drop_hits(&mut self.rows, kind, pattern);
        close_up(
            &self.rows,
            &mut self.order,
            &mut self.values,
            &mut self.members,
        );
        let before = self.held;
        self.held = samples_at(&self.order.places, &self.rows);
        before - self.held
    }

    /// Makes a row that is absent.
    pub fn keep_row(&mut self, kind: Kind, key: &Key, base: Micro, swaps: u32)
        requires absent { contains_key (live_of self.old) (id_of kind key.now) ≡ false }
        requires room { length self.old.listed < self.old.limits.rows }
        ensures live { live_of self.new ≡ insert (live_of self.old) (id_of kind key.now) (without_samples base.0 swaps) }
        ensures count { length self.new.listed ≡ length self.old.listed + 1 }
        ensures limits { self.new.limits ≡ self.old.limits }
        ensures held { self.new.held ≡ self.old.held }
        ensures entries { self.new.entries ≡ self.old.entries }
    {
        add_row(&mut self.rows, &mut self.order, kind, key, base, swaps);
    }

    /// Takes all rows out, with all their samples.
    pub fn clear(&mut self)
        ensures rows { self.new.listed ≡ [] }
        ensures held { self.new.held ≡ 0 }
        ensures entries { self.new.entries ≡ 0 }
        ensures limits { self.new.limits ≡ self.old.limits }
    {
        self.rows.clear();
        self.order.clear();
        self.values.clear();
        self.members.clear();
        self.held = 0;
    }

    /// Takes all samples out. The rows stay where they are, with their bases and their swaps.
    pub fn clear_samples(&mut self)
        ensures places { self.new.places ≡ self.old.places }
        ensures rows { self.new.listed ≡ freshened self.old.listed }
        ensures held { self.new.held ≡ 0 }
        ensures entries { self.new.entries ≡ 0 }
        ensures limits { self.new.limits ≡ self.old.limits }
    {
        clear_tallies(&mut self.rows);
        self.values.clear();
        self.members.clear();
        self.held = 0;
    }

    /// The row in a place, or none where it is empty.
    pub fn get_at(&self, at: u32) -> Option<RowView<'_>>
        requires { at < self.now.limits.rows }
        ensures { MatchOption result (row_at self.now.places at ≡ None) (λ row. row_at self.now.places at ≡ Some (row_seen row)) }
    {
        self.rows.row(at)
    }

    /// The value of the row in a place as a gauge.
    pub fn gauge_at(&self, at: u32) -> Micro
        requires { row_at self.now.places at ≢ None }
        ensures { IfSome (row_at self.now.places at) (λ row. IfSome (get (live_of self.now) (row_view row).0) (λ kept. result.0 ≡ kept.since.gauge)) }
    {
        self.rows.tally(at).gauge
    }

    /// What it says of the row in a place, or none where it is empty.
    pub fn row_at(&self, at: u32) -> Option<RowFacts>
        requires { at < self.now.limits.rows }
        ensures place { MatchOption result (row_at self.now.places at ≡ None)
            (λ row. row_at self.now.places at ≡ Some (record { kind = row.kind; key = row.key; base = row.base; swaps = row.swaps })) }
        ensures reported { IfSome result (λ row. IfSome (get (live_of self.now) (id_of row.kind row.key)) (λ kept. Tells row (id_of row.kind row.key, kept))) }
        ensures bound { IfSome result (λ row. unsigned_abs row.weight.0 ≤ most_held * 10 ^ 24) }
    {
        match self.rows.row(at) {
            None => None,
            Some(row) => Some(facts_of(&row, self.rows.tally(at))),
        }
    }

    /// Empties a place. The others stay.
    pub fn drop_place(&mut self, at: u32)
        requires within { at < self.old.limits.rows }
        requires no_samples { self.old.held ≡ 0 }
        ensures places { self.new.places ≡ set self.old.places at None }
        ensures listing { HasPlaces self.new }
        ensures held { self.new.held ≡ 0 }
        ensures entries { self.new.entries ≡ 0 }
        ensures limits { self.new.limits ≡ self.old.limits }
    {
        empty_at(&mut self.rows, &mut self.order, at);
    }

    /// Makes a place that of another table's row, with this base and these swaps, and without samples. The others stay.
    ///
    /// It takes no step where the place has that kind and key already, and else one.
    pub fn carry_row<L: Ledger>(
        &mut self,
        from: &Table,
        at: u32,
        base: Micro,
        swaps: u32,
        steps: &mut Steps<L>,
    )
        requires limits { from.now.limits ≡ self.old.limits }
        requires live { row_at from.now.places at ≢ None }
        requires no_samples { self.old.held ≡ 0 }
        requires apart { StandsNowhereElse (row_at from.now.places at) at self.old.places }
        ensures places { self.new.places ≡ set self.old.places at (reset (row_at from.now.places at) base swaps) }
        ensures listing { HasPlaces self.new }
        ensures held { self.new.held ≡ 0 }
        ensures entries { self.new.entries ≡ 0 }
        ensures limits { self.new.limits ≡ self.old.limits }
        ensures steps { steps.new ≤ steps.old + copy_steps (row_at from.now.places at) (row_at self.old.places at) }
    {
        keep_in(
            &mut self.rows,
            &mut self.order,
            &from.rows,
            at,
            base,
            swaps,
            steps,
        );
    }

    /// Takes a sample. Its row is made where it is absent, and has no swap since its last sample then.
    pub fn sample(&mut self, s: &Sample)
        requires row_room { contains_key (live_of self.old) (row_of s.now) ≡ false → len (live_of self.old) < self.old.limits.rows }
        requires entry_room { is_listed s.now.kind ≡ true → self.old.entries < self.old.limits.entries }
        requires room { self.old.held < most_held }
        ensures live { live_of self.new ≡ touched (live_of self.old) s.now }
        ensures held { self.new.held ≡ self.old.held + 1 }
        ensures entries { self.new.entries ≡ self.old.entries + (if is_listed s.now.kind then 1 else 0) }
        ensures limits { self.new.limits ≡ self.old.limits }
    {
        let place = touch(&mut self.rows, &mut self.order, s.kind, &s.key);
        let tally = with_sample(self.rows.tally(place), s);
        self.rows.set_tally(place, tally);
        list(&mut self.values, &mut self.members, place, s);
        self.held += 1;
    }
}

/// A copy of a key.
fn copy_key(key: &Key) -> Key
    ensures { result ≡ key.now }
{
    key.clone().unwrap()
}

/// What a row and its tally say.
fn facts_of(row: &RowView<'_>, tally: Tally) -> RowFacts
    ensures row { row_seen row.now ≡ record { kind = result.kind; key = result.key; base = result.base; swaps = result.swaps } }
    ensures samples { result.samples ≡ tally.samples }
    ensures weight { result.weight ≡ tally.weight }
{
    RowFacts {
        kind: row.kind,
        key: copy_key(row.key),
        base: row.base,
        swaps: row.swaps,
        samples: tally.samples,
        weight: tally.weight,
    }
}
