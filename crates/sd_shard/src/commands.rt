ghost use Rattle.std.specs.Prelude.{◌≡◌, ◌+◌, ◌<◌, ◌≤◌, ◌++◌, true, false, filter, length, map, slice_get, IfSome};
ghost use Rattle.std.specs.FinMap.{contains_key};
ghost use Rattle.sd_model_shard.specs.Rows.{is_hit, is_of_kind, RowId, amount_by};
ghost use Rattle.sd_key.specs.Kind.{kind_of};
ghost use Rattle.sd_epoch.specs.Table.{live_of, AreApart};
ghost use Rattle.sd_shard.specs.Dump.{dump_row_of, rows_of};

use crate::dump::{Dump, DumpRow};
use crate::keys::Keys;
use sd_epoch::Table;
use sd_key::{Kind, Pattern};

/// Whether a pattern is a name of which a table has no row of a kind. The index tells that, and no row is looked at.
pub(crate) fn names_no_row(table: &Table, kind: Kind, pattern: &Pattern) -> bool
    ensures { result ≡ true → (id : RowId) → is_hit (kind_of kind) pattern.now id ≡ true → contains_key (live_of table.now) id ≡ false }
{
    match pattern.only_key() {
        Some(key) => !table.has_row(kind, &key),
        None => false,
    }
}

/// Appends the keys of the rows of a kind that a pattern matches, and answers how many those are.
pub(crate) fn push_keys(table: &Table, kind: Kind, pattern: &Pattern, out: &mut Keys) -> u32
    requires { length out.old.items + length table.now.listed ≤ out.old.room }
    ensures keys { out.new.items ≡ out.old.items ++ map (λ row. row.0.key) (filter (λ row. is_hit (kind_of kind) pattern.now row.0) table.now.listed) }
    ensures count { result ≡ length (filter (λ row. is_hit (kind_of kind) pattern.now row.0) table.now.listed) }
    ensures few { result ≤ table.now.limits.rows }
    ensures room { out.new.room ≡ out.old.room }
    ensures apart { AreApart table.now.listed }
{
    let mut rows = 0;
    for i in 0..table.rows() {
        let row = table.get(i);
        if row.is_hit(kind, pattern) {
            out.push(row.key.clone().unwrap());
            rows += 1;
        }
    }
    rows
}

/// A table's i-th row as a dump tells it.
fn dump_row(table: &Table, i: u32) -> DumpRow
    requires { i < length table.now.listed }
    ensures { IfSome (slice_get table.now.listed i) (λ row. dump_row_of result ≡ record { key = row.0.key; samples = row.1.since.samples; amount = amount_by row.0.kind row.1.since }) }
{
    let facts = table.row(i);
    DumpRow {
        key: facts.key,
        samples: facts.samples,
        amount: table.amount_of(i),
    }
}

/// Appends the rows of a kind.
pub(crate) fn push_rows(table: &Table, kind: Kind, out: &mut Dump)
    requires { length out.old.items + length table.now.listed ≤ out.old.room }
    ensures rows { rows_of out.new ≡ rows_of out.old ++ map (λ row. record { key = row.0.key; samples = row.1.since.samples; amount = amount_by row.0.kind row.1.since }) (filter (λ row. is_of_kind (kind_of kind) row.0) table.now.listed) }
    ensures few { length out.new.items ≤ length out.old.items + table.now.limits.rows }
    ensures room { out.new.room ≡ out.old.room }
    ensures apart { AreApart table.now.listed }
{
    for i in 0..table.rows() {
        if table.get(i).is_of_kind(kind) {
            out.push(dump_row(table, i));
        }
    }
}
