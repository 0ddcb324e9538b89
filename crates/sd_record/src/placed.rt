ghost use Rattle.std.specs.Prelude.{◌≡◌, ◌+◌, ◌-◌, ◌^◌, ◌<◌, ◌≤◌, ◌++◌, length, map, vec_len, vec_capacity, slice_get, slice_index_or, List, Some, sum_by, All, IsTrue};
ghost use Rattle.std.specs.List.{AllPairs};
ghost use Rattle.std.specs.List.Sorted.{IsPermutation, IsSortedByKey};
ghost use Rattle.sd_model_shard.specs.Rows.{row_cmp};
ghost use Rattle.sd_epoch.specs.Table.{Listing, AreApart, id_of};
ghost use Rattle.sd_record.specs.Rows.{rows_in, all_rows};
ghost use Rattle.sd_record.specs.Placed.{row_at, id_at, IsPlaced, GoesBefore};
ghost use Rattle.sd_record.specs.declared.placed.Place.{Place as ListedPlace};

use sd_epoch::Table;
use sd_key::Kind;
use std::cmp::Ordering;

/// Where a row stands: in which of several tables, and at which place there.
#[derive(Clone, Copy, Debug)]
pub(crate) struct Place {
    pub table: usize,
    pub row: u32,
}

/// The kind and key of the row at a place. Where there is none they are a counter's and no byte.
fn name_at(tables: &[Table], place: Place) -> (Kind, &[u8])
    ensures { id_of result.0 result.1.now ≡ id_at tables.now place }
{
    match tables.get(place.table) {
        Some(table) if place.row < table.rows() => {
            let row = table.get(place.row);
            (row.kind, row.key.as_slice())
        }
        _ => (Kind::Counter, b""),
    }
}

/// How the rows at two places compare: by their kinds first, and then by their keys.
pub(crate) fn compare(tables: &[Table], a: Place, b: Place) -> Ordering
    ensures { result ≡ row_cmp (id_at tables.now a) (id_at tables.now b) }
{
    let (kind, key) = name_at(tables, a);
    let (other_kind, other_key) = name_at(tables, b);
    kind.cmp(&other_kind).then_with(|| key.cmp(other_key))
}

/// Whether there is a row at a place.
fn is_placed(tables: &[Table], place: Place) -> bool
    ensures { IsTrue result → IsPlaced tables.now place }
{
    match tables.get(place.table) {
        Some(table) => place.row < table.rows(),
        None => false,
    }
}

/// Whether there is a row at the i-th of places, and it goes behind that of the place before, where there is one.
fn goes_behind(tables: &[Table], places: &[Place], i: usize) -> bool
    requires { i < length places.now }
    ensures placed { (d : ListedPlace) → IsTrue result → IsPlaced tables.now (slice_index_or places.now i d) }
    ensures behind { (d : ListedPlace) → IsTrue result → 0 < i
        → GoesBefore tables.now (slice_index_or places.now (i - 1) d) (slice_index_or places.now i d) }
{
    let place = places[i];
    is_placed(tables, place) && (i == 0 || compare(tables, places[i - 1], place).is_lt())
}

/// Whether there are rows at places, and each goes behind those of the places before.
fn are_rising(tables: &[Table], places: &[Place]) -> bool
    ensures placed { IsTrue result → All (IsPlaced tables.now) places.now }
    ensures rising { IsTrue result → AllPairs (GoesBefore tables.now) places.now }
{
    for i in 0..places.len() {
        if !goes_behind(tables, places, i) {
            return false;
        }
    }
    true
}

/// How many rows tables have.
fn count_rows(tables: &[Table]) -> usize
    requires { sum_by (λ t. length t.listed) tables.now < 2 ^ 64 }
    ensures count { result ≡ sum_by (λ t. length t.listed) tables.now }
    ensures apart { All (λ t. AreApart t.listed) tables.now }
{
    let mut count = 0;
    for table in tables {
        count += table.rows() as usize;
    }
    count
}

/// Whether places are those of all rows of tables, in order.
pub(crate) fn are_in_order(tables: &[Table], places: &[Place]) -> bool
    requires { sum_by (λ t. length t.listed) tables.now < 2 ^ 64 }
    ensures rows { IsTrue result → IsPermutation (map Some (all_rows tables.now)) (map (row_at tables.now) places.now) }
    ensures order { IsTrue result → IsSortedByKey (id_at tables.now) row_cmp places.now }
    ensures apart { All (λ t. AreApart t.listed) tables.now }
{
    places.len() == count_rows(tables) && are_rising(tables, places)
}

/// Appends the places of the rows of the table that stands at a place among tables.
fn place_rows(table: &Table, index: usize, places: &mut Vec<Place>)
    requires room { vec_len places.old + length table.now.listed ≤ vec_capacity places.old }
    ensures rows { (tables : List Listing) → slice_get tables index ≡ Some table.now
        → map (row_at tables) places.new.items ≡ map (row_at tables) places.old.items ++ map Some (rows_in table.now) }
    ensures apart { AreApart table.now.listed }
    ensures capacity { vec_capacity places.new ≡ vec_capacity places.old }
{
    for row in 0..table.rows() {
        places.push_reserved(Place { table: index, row });
    }
}

/// Puts the places of the rows of all tables in place of those that were there.
pub(crate) fn place_all(tables: &[Table], places: &mut Vec<Place>)
    requires room { sum_by (λ t. length t.listed) tables.now ≤ vec_capacity places.old }
    ensures rows { map (row_at tables.now) places.new.items ≡ map Some (all_rows tables.now) }
    ensures apart { All (λ t. AreApart t.listed) tables.now }
    ensures capacity { vec_capacity places.new ≡ vec_capacity places.old }
{
    places.clear();
    for (index, table) in tables.iter().enumerate() {
        place_rows(table, index, places);
    }
}
