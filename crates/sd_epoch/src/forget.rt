ghost use Rattle.std.specs.Prelude.{◌≡◌, ◌+◌, ◌^◌, ◌<◌, ◌≤◌, is_some, None, vec_len, vec_capacity, length, get_or, set, sum_by};
ghost use Rattle.sd_model_shard.specs.Rows.{is_same_row, is_hit};
ghost use Rattle.sd_key.specs.Kind.{kind_of};
ghost use Rattle.sd_rows.specs.Rows.{row_at};
ghost use Rattle.sd_epoch.specs.Forget.{IsClosedUp};
ghost use Rattle.sd_epoch.specs.Members.{AreMembers};
ghost use Rattle.sd_epoch.specs.Order.{AreWithin, IsRanked};
ghost use Rattle.sd_epoch.specs.Places.{left_by, AreLeft, AreRows};
ghost use Rattle.sd_epoch.specs.Since.{no_tally};
ghost use Rattle.sd_epoch.specs.Table.{id_of, most_held};
ghost use Rattle.sd_epoch.specs.Values.{AreValues};

use crate::members::Members;
use crate::order::Order;
use crate::values::Values;
use sd_key::{Key, Kind, Pattern};
use sd_rows::Rows;

/// Whether a place has a row.
pub(crate) fn is_live(rows: &Rows, place: u32) -> bool
    ensures { result ≡ is_some (row_at rows.now.rows place) }
{
    place < rows.len() && rows.row(place).is_some()
}

/// Takes the places, the values and the members out that have no row.
pub(crate) fn close_up(rows: &Rows, order: &mut Order, values: &mut Values, members: &mut Members)
    requires ranked { IsRanked order.old.places.items order.old.rank.items }
    requires values { AreValues values.old }
    requires members { AreMembers members.old }
    requires value_places { length values.old.chain.last.items ≡ length rows.now.rows }
    requires member_places { length members.old.chain.last.items ≡ length rows.now.rows }
    requires few_values { length values.old.items.items ≤ 2 ^ 20 }
    requires few_members { length members.old.items.items ≤ 2 ^ 20 }
    ensures { IsClosedUp rows.now.rows order.old order.new values.old values.new members.old members.new }
{
    order.retain_live(rows);
    values.retain_live(rows);
    members.retain_live(rows);
}

/// How many samples the rows in these places have together.
pub(crate) fn samples_at(places: &[u32], rows: &Rows) -> u64
    requires within { AreWithin (length rows.now.rows) places.now }
    requires few { sum_by (λ p. (get_or rows.now.tallies p no_tally).samples) places.now ≤ most_held }
    ensures { result ≡ sum_by (λ p. (get_or rows.now.tallies p no_tally).samples) places.now }
{
    let mut samples = 0;
    for at in 0..places.len() {
        samples += rows.tally(places[at]).samples;
    }
    samples
}

/// Takes a row out, where it is there.
pub(crate) fn drop_row(rows: &mut Rows, kind: Kind, key: &Key)
    ensures left { AreLeft (is_same_row (id_of kind key.now)) rows.old.rows rows.new.rows }
    ensures len { length rows.new.rows ≡ length rows.old.rows }
    ensures tallies { rows.new.tallies ≡ rows.old.tallies }
{
    if let Some(place) = rows.find(kind, key) {
        rows.remove(place);
    }
}

/// Takes the row of a place out, where it is of the kind and the pattern matches its key.
fn drop_hit(rows: &mut Rows, place: u32, kind: Kind, pattern: &Pattern)
    requires { place < length rows.old.rows }
    ensures rows { rows.new.rows ≡ set rows.old.rows place (left_by (is_hit (kind_of kind) pattern.now) (row_at rows.old.rows place)) }
    ensures tallies { rows.new.tallies ≡ rows.old.tallies }
{
    if let Some(row) = rows.row(place)
        && row.is_hit(kind, pattern)
    {
        rows.remove(place);
    }
}

/// Takes the rows of a kind out that a pattern matches.
pub(crate) fn drop_hits(rows: &mut Rows, kind: Kind, pattern: &Pattern)
    ensures left { AreLeft (is_hit (kind_of kind) pattern.now) rows.old.rows rows.new.rows }
    ensures len { length rows.new.rows ≡ length rows.old.rows }
    ensures tallies { rows.new.tallies ≡ rows.old.tallies }
{
    for place in 0..rows.len() {
        drop_hit(rows, place, kind, pattern);
    }
}

/// Empties a place, whatever it has.
pub(crate) fn empty_at(rows: &mut Rows, order: &mut Order, at: u32)
    requires within { at < length rows.old.rows }
    requires rows { AreRows rows.old.rows order.old.places.items }
    requires ranked { IsRanked order.old.places.items order.old.rank.items }
    ensures places { rows.new.rows ≡ set rows.old.rows at None }
    ensures tallies { rows.new.tallies ≡ rows.old.tallies }
    ensures rows { AreRows rows.new.rows order.new.places.items }
    ensures ranked { IsRanked order.new.places.items order.new.rank.items }
    ensures ranks { length order.new.rank.items ≡ length order.old.rank.items }
    ensures few { vec_len order.new.places ≤ vec_len order.old.places }
    ensures capacity { vec_capacity order.new.places ≡ vec_capacity order.old.places }
{
    if rows.row(at).is_some() {
        rows.remove(at);
        order.remove(at);
    }
}
