ghost use Rattle.std.specs.Prelude.{◌≡◌, ◌≢◌, ℕ, ◌+◌, ◌<◌, ◌≤◌, Some, None, is_some, set, map, option_map, ◌↔◌, IsTrue, MatchOption, IfSome, sum_by};
ghost use Rattle.std.specs.FinMap.{get};
ghost use Rattle.std.specs.List.{range_with_len};
ghost use Rattle.sd_model_shard.specs.Shard.{kept_by, kept_rows};
ghost use Rattle.sd_model_shard.specs.Rows.{without_samples};
ghost use Rattle.sd_key.specs.Kind.{kind_of};
ghost use Rattle.sd_rows.specs.Rows.{row_at, row_seen, StandsNowhereElse, reset};
ghost use Rattle.sd_rows.specs.RowMap.{copy_steps};
ghost use Rattle.sd_epoch.specs.Table.{live_of, row_view, HasPlaces};
ghost use Rattle.sd_shard.specs.Policy.{policy_of};
ghost use Rattle.sd_shard.specs.Swap.{row_left, staying, swap_steps};

use crate::policy::Policy;
use sd_decimal::Micro;
use sd_epoch::Table;
use sd_key::Kind;
use sd_rows::{RowView, Steps};
use std::sync::ledger::Ledger;

/// Where the swaps of a row end.
const LAST_SWAPS: u32 = 1_000_000_000;

/// With what a row goes on after a swap.
#[derive(Clone, Copy, Debug)]
struct Left {
    base: Micro,
    swaps: u32,
}

/// What the row of a table's place keeps at a swap.
fn kept_at(table: &Table, at: u32, row: &RowView<'_>) -> Left
    requires row { row_at table.now.places at ≡ Some (row_seen row.now) }
    requires listing { HasPlaces table.now }
    ensures { option_map (kept_by (kind_of row.now.kind)) (get (live_of table.now) (row_view (row_seen row.now)).0) ≡ Some (without_samples result.base.0 result.swaps) }
{
    match row.kind {
        Kind::Gauge => Left {
            base: table.gauge_at(at),
            swaps: row.swaps.saturating_add(1).min(LAST_SWAPS),
        },
        Kind::Counter | Kind::Timer | Kind::Set => Left {
            base: row.base,
            swaps: row.swaps,
        },
    }
}

/// What is left of the row of a table's place at a swap.
fn left_at(table: &Table, at: u32, policy: &Policy) -> Option<Left>
    requires within { at < table.now.limits.rows }
    requires listing { HasPlaces table.now }
    ensures left { MatchOption result (row_left (policy_of policy.now) (live_of table.now) (row_at table.now.places at) ≡ None)
        (λ left. row_left (policy_of policy.now) (live_of table.now) (row_at table.now.places at) ≡ reset (row_at table.now.places at) left.base left.swaps) }
    ensures live { IfSome result (λ left. row_at table.now.places at ≢ None) }
{
    let row = table.get_at(at)?;
    let left = kept_at(table, at, &row);
    if policy.expires(row.kind, left.swaps) {
        None
    } else {
        Some(left)
    }
}

/// Whether two rows are of one kind and key.
fn is_same(row: &RowView<'_>, other: &RowView<'_>) -> bool
    ensures { IsTrue result ↔ ((other.now.kind ≡ row.now.kind) × (other.now.key.now ≡ row.now.key.now)) }
{
    other.kind == row.kind && *other.key == *row.key
}

/// Whether a place has a row of one kind and key in both tables.
fn is_same_at(table: &Table, other: &Table, at: u32) -> bool
    requires within { at < table.now.limits.rows }
    requires limits { other.now.limits ≡ table.now.limits }
    ensures { result ≡ is_some (staying (row_at table.now.places at) (row_at other.now.places at)) }
{
    match (table.get_at(at), other.get_at(at)) {
        (Some(row), Some(there)) => is_same(&row, &there),
        _ => false,
    }
}

/// Empties a place of the spare table, unless it has the kind and key of the row that is kept there.
fn empty_other(table: &Table, at: u32, policy: &Policy, into: &mut Table)
    requires within { at < table.now.limits.rows }
    requires table { HasPlaces table.now }
    requires limits { into.old.limits ≡ table.now.limits }
    requires no_samples { into.old.held ≡ 0 }
    requires no_entries { into.old.entries ≡ 0 }
    requires listing { HasPlaces into.old }
    ensures places { into.new.places ≡ set into.old.places at (staying (row_left (policy_of policy.now) (live_of table.now) (row_at table.now.places at)) (row_at into.old.places at)) }
    ensures listing { HasPlaces into.new }
    ensures limits { into.new.limits ≡ into.old.limits }
    ensures held { into.new.held ≡ 0 }
    ensures entries { into.new.entries ≡ 0 }
{
    if into.get_at(at).is_some()
        && (left_at(table, at, policy).is_none() || !is_same_at(table, into, at))
    {
        into.drop_place(at);
    }
}

/// Empties each place of the spare table whose row isn't carried there.
fn empty_others(table: &Table, policy: &Policy, into: &mut Table)
    requires table { HasPlaces table.now }
    requires limits { into.old.limits ≡ table.now.limits }
    requires no_samples { into.old.held ≡ 0 }
    requires no_entries { into.old.entries ≡ 0 }
    ensures places { (p : ℕ) → row_at into.new.places p
        ≡ staying (row_left (policy_of policy.now) (live_of table.now) (row_at table.now.places p)) (row_at into.old.places p) }
    ensures listing { HasPlaces into.new }
    ensures limits { into.new.limits ≡ into.old.limits }
    ensures held { into.new.held ≡ 0 }
    ensures entries { into.new.entries ≡ 0 }
{
    for at in 0..into.limits().rows {
        empty_other(table, at, policy, into);
    }
}

/// Keeps the row of a place, if it stays.
fn keep_at<L: Ledger>(
    table: &Table,
    at: u32,
    policy: &Policy,
    into: &mut Table,
    steps: &mut Steps<L>,
)
    requires within { at < table.now.limits.rows }
    requires table { HasPlaces table.now }
    requires limits { into.old.limits ≡ table.now.limits }
    requires no_samples { into.old.held ≡ 0 }
    requires no_entries { into.old.entries ≡ 0 }
    requires listing { HasPlaces into.old }
    requires apart { StandsNowhereElse (row_at table.now.places at) at into.old.places }
    requires empty { row_left (policy_of policy.now) (live_of table.now) (row_at table.now.places at) ≡ None → row_at into.old.places at ≡ None }
    ensures places { into.new.places ≡ set into.old.places at (row_left (policy_of policy.now) (live_of table.now) (row_at table.now.places at)) }
    ensures listing { HasPlaces into.new }
    ensures limits { into.new.limits ≡ into.old.limits }
    ensures held { into.new.held ≡ 0 }
    ensures entries { into.new.entries ≡ 0 }
    ensures steps { steps.new ≤ steps.old + copy_steps (row_left (policy_of policy.now) (live_of table.now) (row_at table.now.places at)) (row_at into.old.places at) }
{
    if let Some(left) = left_at(table, at, policy) {
        into.carry_row(table, at, left.base, left.swaps, steps);
    }
}

/// Keeps the rows that stay into a table that has no other rows than these, each in its place.
fn keep_each_row<L: Ledger>(
    table: &Table,
    rows: u32,
    policy: &Policy,
    into: &mut Table,
    steps: &mut Steps<L>,
)
    requires rows { rows ≡ table.now.limits.rows }
    requires table { HasPlaces table.now }
    requires limits { into.old.limits ≡ table.now.limits }
    requires no_samples { into.old.held ≡ 0 }
    requires no_entries { into.old.entries ≡ 0 }
    requires listing { HasPlaces into.old }
    requires staying { (p : ℕ) → row_at into.old.places p
        ≡ staying (row_left (policy_of policy.now) (live_of table.now) (row_at table.now.places p)) (row_at into.old.places p) }
    ensures places { into.new.places ≡ map (row_left (policy_of policy.now) (live_of table.now)) table.now.places }
    ensures live { live_of into.new ≡ kept_rows (policy_of policy.now) (live_of table.now) }
    ensures limits { into.new.limits ≡ into.old.limits }
    ensures held { into.new.held ≡ 0 }
    ensures entries { into.new.entries ≡ 0 }
    ensures steps { steps.new ≤ steps.old + swap_steps (policy_of policy.now) table.now into.old }
{
    for at in 0..rows {
        keep_at(table, at, policy, into, steps);
    }
}

/// Makes the rows of a spare table those that stay at a swap, each in the place that it has.
pub(crate) fn keep_rows<L: Ledger>(
    table: &Table,
    policy: &Policy,
    into: &mut Table,
    steps: &mut Steps<L>,
)
    requires limits { into.old.limits ≡ table.now.limits }
    requires no_samples { into.old.held ≡ 0 }
    requires no_entries { into.old.entries ≡ 0 }
    ensures live { live_of into.new ≡ kept_rows (policy_of policy.now) (live_of table.now) }
    ensures limits { into.new.limits ≡ into.old.limits }
    ensures held { into.new.held ≡ 0 }
    ensures entries { into.new.entries ≡ 0 }
    ensures steps { steps.new ≤ steps.old + swap_steps (policy_of policy.now) table.now into.old }
{
    let rows = table.limits().rows;
    empty_others(table, policy, into);
    keep_each_row(table, rows, policy, into, steps);
}
