ghost use Rattle.std.specs.Prelude.{◌≡◌, List, Some, None, map};
ghost use Rattle.std.specs.List.{list_any};
ghost use Rattle.std.specs.Str.{bytes_eq};
ghost use Rattle.std.specs.Ordering.{nat_cmp};
ghost use Rattle.std.specs.Cmp.Lexicographic.{slice_cmp};
ghost use Rattle.std.specs.List.Sorted.{IsStrictlySortedBy};
ghost use Rattle.std.specs.Option.{option_map, option_copied};
ghost use Rattle.toml.specs.Data.{get_member};
ghost use Rattle.toml.specs.View.{view, items_view, table_view};
ghost use Rattle.sd_model_settings.specs.Settings.{shown, names, first_unknown, unknown_in, unknown_among, unknown_in_list, setting_tables, unknown};

use crate::fault::shown;
use crate::fields::found;
use crate::table::{GRAPHITE, TOP};
use sd_outside::Name;
use toml::{Table, Value};

const HISTOGRAM: [&str; 2] = ["metric", "bins"];

const REPEATER: [&str; 2] = ["host", "port"];

const NODES: [&str; 3] = ["host", "port", "adminport"];

fn is_known(name: &str, known: &[&str]) -> bool
    ensures { result ≡ list_any (λ k. bytes_eq k.now name.now) known.now }
{
    known.iter().any(|k| *k == name)
}

// The first name of a table that isn't known, behind what stands before it.
fn first_unknown(table: &Table, prefix: &str, known: &[&str]) -> Option<Name>
    ensures { option_map (λ n. n.items) result
        ≡ option_map shown (first_unknown prefix.now (map (λ k. k.now) known.now) (names (table_view table.now))) }
{
    for name in table.keys() {
        if !is_known(name.as_str(), known) {
            return Some(shown(prefix, name.as_str()));
        }
    }
    None
}

fn unknown_in(value: Option<&Value>, prefix: &str, known: &[&str]) -> Option<Name>
    ensures { option_map (λ n. n.items) result
        ≡ option_map shown (unknown_in prefix.now (map (λ k. k.now) known.now) (option_map (λ v. view v.now) value.entry)) }
{
    match value {
        Some(Value::Table(table)) => first_unknown(table, prefix, known),
        _ => None,
    }
}

fn unknown_among(items: &[Value], prefix: &str, known: &[&str]) -> Option<Name>
    ensures { option_map (λ n. n.items) result
        ≡ option_map shown (unknown_among prefix.now (map (λ k. k.now) known.now) (items_view items.now)) }
{
    for item in items {
        if let Some(name) = unknown_in(Some(item), prefix, known) {
            return Some(name);
        }
    }
    None
}

fn unknown_in_list(value: Option<&Value>, prefix: &str, known: &[&str]) -> Option<Name>
    ensures { option_map (λ n. n.items) result
        ≡ option_map shown (unknown_in_list prefix.now (map (λ k. k.now) known.now) (option_map (λ v. view v.now) value.entry)) }
{
    match value {
        Some(Value::Array(items)) => unknown_among(items, prefix, known),
        _ => None,
    }
}

/// The first name of a file that isn't known.
#[tactic(auto, unfolding(sd_model_settings::specs::Settings::unknown))]
pub(crate) fn unknown(table: &Table) -> Option<Name>
    ensures { option_map (λ n. n.items) result ≡ option_map shown (unknown setting_tables (table_view table.now)) }
{
    if let Some(name) = first_unknown(table, "", &TOP) {
        return Some(name);
    }
    if let Some(name) = unknown_in(found(table, "graphite"), "graphite.", &GRAPHITE) {
        return Some(name);
    }
    if let Some(name) = unknown_in_list(found(table, "histogram"), "histogram.", &HISTOGRAM) {
        return Some(name);
    }
    if let Some(name) = unknown_in_list(found(table, "repeater"), "repeater.", &REPEATER) {
        return Some(name);
    }
    unknown_in_list(found(table, "nodes"), "nodes.", &NODES)
}

/// The names of a table ascend by their bytes.
pub fn names_ascend(table: &Table)
    ensures { IsStrictlySortedBy (slice_cmp nat_cmp) (names (table_view table.now)) }
{
    let _ = table.keys();
}
