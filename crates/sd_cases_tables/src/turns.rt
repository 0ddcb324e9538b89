ghost use Rattle.std.specs.Prelude.{◌≡◌, ◌<◌};

use sd_case::Refusal;
use sd_epoch::Table;
use sd_key::Kind;
use sd_rows::{Row, RowView, Steps};
use sd_shard::{Policy, Shard};
use std::alloc::Global;
use std::sync::ledger::{Blank, Ledger};

/// Swaps a shard, with steps that are counted in a ledger of their own.
pub(crate) fn swap_counted<L: Ledger>(shard: &mut Shard, spare: Table, blank: Blank) -> Table
    requires limits { spare.limits ≡ shard.old.table.limits }
    requires no_samples { spare.held ≡ 0 }
    requires no_entries { spare.entries ≡ 0 }
    requires name { blank.name ≡ L.name }
    requires parts { blank.parts ≡ L.parts }
    requires some { 0 < blank.parts }
    ensures limits { result.limits ≡ shard.old.table.limits }
    ensures shard { shard.new.table.limits ≡ shard.old.table.limits }
{
    let mut steps: Steps<L> = Steps::new(blank);
    shard.swap(spare, &mut steps)
}

/// The rows that stand in the places of a table.
pub(crate) fn rows_at(alloc: Global, table: &Table) -> Result<Vec<Option<Row>>, Refusal> {
    let mut rows = Vec::new(alloc);
    for at in 0..table.limits().rows {
        rows.push(table.get_at(at).map(|row| row.to_row()))?;
    }
    Ok(rows)
}

/// How many steps a swap may take that gave this table out, where the spare had these rows in its places: one for
/// each row that stays, and that the spare doesn't have at its place.
pub(crate) fn most_steps(table: &Table, policy: &Policy, spare: &[Option<Row>]) -> u64 {
    let mut most = 0_u64;
    for at in 0..table.limits().rows {
        if let Some(row) = table.get_at(at)
            && stays(&row, policy)
            && !spare
                .get(at as usize)
                .is_some_and(|there| is_same(&row, there))
        {
            most = most.saturating_add(1);
        }
    }
    most
}

/// Whether a row stays at a swap.
fn stays(row: &RowView<'_>, policy: &Policy) -> bool {
    let more = u32::from(row.kind == Kind::Gauge);
    !policy.expires(row.kind, row.swaps.saturating_add(more))
}

/// Whether a place has a row of the kind and key of this one.
fn is_same(row: &RowView<'_>, there: &Option<Row>) -> bool {
    match there {
        Some(other) => row.is_of(other.kind, &other.key),
        None => false,
    }
}
