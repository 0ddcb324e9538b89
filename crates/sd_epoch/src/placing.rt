ghost use Rattle.std.specs.Prelude.{◌≡◌, ◌≢◌, ℕ, ◌+◌, ◌^◌, ◌<◌, ◌≤◌, ◌==◌, [], ◌∷◌, ◌++◌, true, if◌then◌else◌, List, length, get_or, set, Option, Some, None, vec_len, vec_capacity};
ghost use Rattle.std.specs.FinMap.{insert};
ghost use Rattle.sd_model_shard.specs.Rows.{is_listed, row_in};
ghost use Rattle.sd_rows.specs.Rows.{row_at, row_seen, Holds, IsAbsent, StandsNowhereElse, reset};
ghost use Rattle.sd_rows.specs.RowMap.{copy_steps};
ghost use Rattle.sd_rows.specs.declared.row.Row.{Row};
ghost use Rattle.sd_epoch.specs.Members.{AreMembers, member_places};
ghost use Rattle.sd_epoch.specs.Order.{IsRanked};
ghost use Rattle.sd_epoch.specs.Places.{reported_live, AllLive, AreRows, AreSince, StayAt};
ghost use Rattle.sd_epoch.specs.Since.{no_tally, since_at, values_at, members_at, reported_values, reported_members, values_with, members_with, IsFresh, without_swaps};
ghost use Rattle.sd_epoch.specs.Table.{id_of};
ghost use Rattle.sd_epoch.specs.Values.{AreValues, value_places};
ghost use Rattle.sd_epoch.specs.declared.members.SetMember.{SetMember};
ghost use Rattle.sd_epoch.specs.declared.values.TimerValue.{TimerValue};

use crate::members::Members;
use crate::order::Order;
use crate::tally::empty_tally;
use crate::values::Values;
use sd_decimal::Micro;
use sd_key::{Key, Kind};
use sd_line::Sample;
use sd_rows::{RowView, Rows, Steps};
use std::sync::ledger::Ledger;

/// The row of a place that has one.
pub(crate) fn live_row(rows: &Rows, place: u32) -> RowView<'_>
    requires { row_at rows.now.rows place ≢ None }
    ensures { row_at rows.now.rows place ≡ Some (row_seen result) }
{
    rows.row(place).unwrap()
}

/// Makes a row that is absent, without samples. Answers its place.
pub(crate) fn add_row(
    rows: &mut Rows,
    order: &mut Order,
    kind: Kind,
    key: &Key,
    base: Micro,
    swaps: u32,
) -> u32
    requires rows { AreRows rows.old.rows order.old.places.items }
    requires ranked { IsRanked order.old.places.items order.old.rank.items }
    requires ranks { length order.old.rank.items ≡ length rows.old.rows }
    requires absent { IsAbsent kind key.now rows.old.rows }
    requires room { vec_len order.old.places < length rows.old.rows }
    requires order_room { vec_len order.old.places < vec_capacity order.old.places }
    requires tally_room { length rows.old.tallies ≡ length rows.old.rows }
    ensures row { row_at rows.new.rows result ≡ Some (record { kind = kind; key = key.now; base = base; swaps = swaps }) }
    ensures rows { AreRows rows.new.rows order.new.places.items }
    ensures ranked { IsRanked order.new.places.items order.new.rank.items }
    ensures ranks { length order.new.rank.items ≡ length order.old.rank.items }
    ensures empty { row_at rows.old.rows result ≡ None }
    ensures others { (p : ℕ) → p ≢ result → row_at rows.new.rows p ≡ row_at rows.old.rows p }
    ensures order { order.new.places.items ≡ order.old.places.items ++ result ∷ [] }
    ensures stay { StayAt rows.old.rows rows.new.rows }
    ensures tally { IsFresh base.0 (get_or rows.new.tallies result no_tally) }
    ensures other_tallies { (p : ℕ) → p ≢ result → get_or rows.new.tallies p no_tally ≡ get_or rows.old.tallies p no_tally }
    ensures places { length rows.new.rows ≡ length rows.old.rows }
    ensures tally_places { length rows.new.tallies ≡ length rows.old.tallies }
    ensures len { vec_len order.new.places ≡ vec_len order.old.places + 1 }
    ensures capacity { vec_capacity order.new.places ≡ vec_capacity order.old.places }
{
    let place = rows.add(kind, key);
    rows.set(place, base, swaps);
    order.push(place);
    rows.set_tally(place, empty_tally(base));
    place
}

/// Notes a sample of a row, which is made where it is absent. Answers its place.
pub(crate) fn touch(rows: &mut Rows, order: &mut Order, kind: Kind, key: &Key) -> u32
    requires rows { AreRows rows.old.rows order.old.places.items }
    requires ranked { IsRanked order.old.places.items order.old.rank.items }
    requires ranks { length order.old.rank.items ≡ length rows.old.rows }
    requires few { vec_len order.old.places ≤ length rows.old.rows }
    requires room { IsAbsent kind key.now rows.old.rows → vec_len order.old.places < length rows.old.rows }
    requires order_room { length rows.old.rows ≤ vec_capacity order.old.places }
    requires tally_room { length rows.old.tallies ≡ length rows.old.rows }
    ensures row { Holds kind key.now (row_at rows.new.rows result) }
    ensures rows { AreRows rows.new.rows order.new.places.items }
    ensures ranked { IsRanked order.new.places.items order.new.rank.items }
    ensures ranks { length order.new.rank.items ≡ length order.old.rank.items }
    ensures live { (values : List TimerValue) (members : List SetMember) → AllLive rows.old.rows (value_places values) → AllLive rows.old.rows (member_places members)
        → reported_live rows.new.rows (since_at rows.new.tallies values members) order.new.places.items
        ≡ insert (reported_live rows.old.rows (since_at rows.old.tallies values members) order.old.places.items) (id_of kind key.now)
        (without_swaps (row_in (reported_live rows.old.rows (since_at rows.old.tallies values members) order.old.places.items) (id_of kind key.now))) }
    ensures since { (values : List TimerValue) (members : List SetMember) → AllLive rows.old.rows (value_places values) → AllLive rows.old.rows (member_places members)
        → AreSince rows.old.rows (since_at rows.old.tallies values members) → AreSince rows.new.rows (since_at rows.new.tallies values members) }
    ensures stay { StayAt rows.old.rows rows.new.rows }
    ensures places { length rows.new.rows ≡ length rows.old.rows }
    ensures tally_places { length rows.new.tallies ≡ length rows.old.tallies }
    ensures few { vec_len order.new.places ≤ length rows.new.rows }
    ensures capacity { vec_capacity order.new.places ≡ vec_capacity order.old.places }
{
    match rows.find(kind, key) {
        Some(place) => {
            let base = live_row(rows, place).base;
            rows.set(place, base, 0);
            place
        }
        None => add_row(rows, order, kind, key, Micro(0), 0),
    }
}

/// Makes a place as that of other rows is, with this base and these swaps, and without samples. Nothing else is held.
pub(crate) fn keep_in<L: Ledger>(
    rows: &mut Rows,
    order: &mut Order,
    from: &Rows,
    at: u32,
    base: Micro,
    swaps: u32,
    steps: &mut Steps<L>,
)
    requires rows { AreRows rows.old.rows order.old.places.items }
    requires ranked { IsRanked order.old.places.items order.old.rank.items }
    requires ranks { length order.old.rank.items ≡ length rows.old.rows }
    requires within { at < length rows.old.rows }
    requires live { row_at from.now.rows at ≢ None }
    requires apart { StandsNowhereElse (row_at from.now.rows at) at rows.old.rows }
    requires order_room { length rows.old.rows ≤ vec_capacity order.old.places }
    requires tally_room { length rows.old.tallies ≡ length rows.old.rows }
    ensures places { rows.new.rows ≡ set rows.old.rows at (reset (row_at from.now.rows at) base swaps) }
    ensures rows { AreRows rows.new.rows order.new.places.items }
    ensures ranked { IsRanked order.new.places.items order.new.rank.items }
    ensures ranks { length order.new.rank.items ≡ length order.old.rank.items }
    ensures tally { IsFresh base.0 (get_or rows.new.tallies at no_tally) }
    ensures other_tallies { (p : ℕ) → p ≢ at → get_or rows.new.tallies p no_tally ≡ get_or rows.old.tallies p no_tally }
    ensures tally_places { length rows.new.tallies ≡ length rows.old.tallies }
    ensures capacity { vec_capacity order.new.places ≡ vec_capacity order.old.places }
    ensures steps { steps.new ≡ steps.old + copy_steps (row_at from.now.rows at) (row_at rows.old.rows at) }
{
    let was_empty = rows.row(at).is_none();
    rows.copy_row(from, at, steps);
    rows.set(at, base, swaps);
    if was_empty {
        order.push(at);
    }
    rows.set_tally(at, empty_tally(base));
}

/// Makes the tally of a place one without samples, where it has a row.
fn clear_tally(rows: &mut Rows, at: u32)
    requires within { at < length rows.old.rows }
    requires tally_room { length rows.old.tallies ≡ length rows.old.rows }
    ensures rows { rows.new.rows ≡ rows.old.rows }
    ensures tally { (row : Row) → row_at rows.old.rows at ≡ Some row → IsFresh row.base.0 (get_or rows.new.tallies at no_tally) }
    ensures others { (p : ℕ) → p ≢ at → get_or rows.new.tallies p no_tally ≡ get_or rows.old.tallies p no_tally }
    ensures tally_places { length rows.new.tallies ≡ length rows.old.tallies }
{
    if let Some(row) = rows.row(at) {
        let base = row.base;
        rows.set_tally(at, empty_tally(base));
    }
}

/// Makes the tally of each row one without samples.
pub(crate) fn clear_tallies(rows: &mut Rows)
    ensures rows { rows.new.rows ≡ rows.old.rows }
    ensures tallies { (p : ℕ) (row : Row) → row_at rows.old.rows p ≡ Some row → IsFresh row.base.0 (get_or rows.new.tallies p no_tally) }
    ensures tally_places { length rows.new.tallies ≡ length rows.old.tallies }
{
    for at in 0..rows.len() {
        clear_tally(rows, at);
    }
}

/// Puts the value of a timer's sample and the member of a set's behind the others, of the row in this place.
pub(crate) fn list(values: &mut Values, members: &mut Members, place: u32, s: &Sample)
    requires values { AreValues values.old }
    requires members { AreMembers members.old }
    requires value_place { place < length values.old.chain.last.items }
    requires member_place { place < length members.old.chain.last.items }
    requires value_room { is_listed s.now.kind ≡ true → vec_len values.old.items < vec_capacity values.old.items }
    requires member_room { is_listed s.now.kind ≡ true → vec_len members.old.items < vec_capacity members.old.items }
    requires few_values { is_listed s.now.kind ≡ true → vec_len values.old.items < 2 ^ 20 }
    requires few_members { is_listed s.now.kind ≡ true → vec_len members.old.items < 2 ^ 20 }
    ensures values { (p : ℕ) → reported_values (values_at p values.new.items.items)
        ≡ (if place == p then values_with s.now.kind (reported_values (values_at p values.old.items.items)) s.now else reported_values (values_at p values.old.items.items)) }
    ensures members { (p : ℕ) → reported_members (members_at p members.new.items.items)
        ≡ (if place == p then members_with s.now.kind (reported_members (members_at p members.old.items.items)) s.now else reported_members (members_at p members.old.items.items)) }
    ensures are_values { AreValues values.new }
    ensures are_members { AreMembers members.new }
    ensures owned_values { (rows : List (Option Row)) → row_at rows place ≢ None → AllLive rows (value_places values.old.items.items) → AllLive rows (value_places values.new.items.items) }
    ensures owned_members { (rows : List (Option Row)) → row_at rows place ≢ None → AllLive rows (member_places members.old.items.items) → AllLive rows (member_places members.new.items.items) }
    ensures count { length values.new.items.items + length members.new.items.items
        ≡ length values.old.items.items + length members.old.items.items + (if is_listed s.now.kind then 1 else 0) }
    ensures value_places { length values.new.chain.last.items ≡ length values.old.chain.last.items }
    ensures member_places { length members.new.chain.last.items ≡ length members.old.chain.last.items }
    ensures value_capacity { vec_capacity values.new.items ≡ vec_capacity values.old.items }
    ensures member_capacity { vec_capacity members.new.items ≡ vec_capacity members.old.items }
{
    match s.kind {
        Kind::Timer => values.push(place, s.value),
        Kind::Set => members.push(place, &s.member),
        Kind::Counter | Kind::Gauge => {}
    }
}
