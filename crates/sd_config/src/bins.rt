ghost use Rattle.std.specs.Prelude.{◌≡◌, Ok, if◌then◌else◌, ◌&&◌, Err};
ghost use Rattle.std.specs.List.{list_all};
ghost use Rattle.toml.specs.Data.{get_member};
ghost use Rattle.toml.specs.View.{view, items_view, table_view};
ghost use Rattle.sd_model_settings.specs.Values.{required, decimal, mapped, each, are_at_most, OtherKind, ranged};
ghost use Rattle.sd_model_text.specs.Numbers.{ascends, limit_lt, Below, Infinite};
ghost use Rattle.sd_model_settings.specs.Entries.{is_inf, has_early_inf, is_limit, bins_read};
ghost use Rattle.sd_config.specs.Answers.{seen_by};
ghost use Rattle.sd_plan.specs.Entries.{limit_of, limits_of};

use crate::fault::ValueFault;
use crate::fields::found;
use crate::lists::{Element, each};
use crate::values;
use arrayvec::ArrayVec;
use sd_decimal::{Limit, Micro};
use toml::{Table, Value};

// 10^10 in millionths.
const LARGEST: i64 = 10_000_000_000_000_000;

/// Whether a value is the string `inf`.
fn is_inf(value: &Value) -> bool
    ensures { result ≡ is_inf (view value.now) }
{
    match value {
        Value::String(text) => text.as_bytes() == b"inf".as_slice(),
        _ => false,
    }
}

impl Element<()> for Limit {
    ghost use Rattle.sd_model_text.specs.Numbers.{Limit as ModelLimit};
    ghost use Rattle.sd_plan.specs.Entries.{limit_of};

    ghost Seen = { ModelLimit };

    ghost seen = { limit_of };

    ghost reads = { λ rule d. if is_inf d then Ok Infinite else mapped Below (decimal d) };

    fn read(value: &Value, _rule: ()) -> Result<Limit, ValueFault> {
        if is_inf(value) {
            Ok(Limit::Infinite)
        } else {
            match values::decimal(value) {
                Ok(number) => Ok(Limit::Below(number)),
                Err(fault) => Err(fault),
            }
        }
    }
}

// Whether `inf` stands before another item.
fn has_early_inf(items: &[Value]) -> bool
    ensures { result ≡ has_early_inf (items_view items.now) }
{
    match items {
        [first, rest @ ..] if !rest.is_empty() => is_inf(first) || has_early_inf(rest),
        _ => false,
    }
}

fn is_limit(limit: &Limit) -> bool
    ensures { result ≡ is_limit (limit_of limit.now) }
{
    match limit {
        Limit::Below(number) => 0 < number.0 && number.0 <= LARGEST,
        Limit::Infinite => true,
    }
}

fn each_is_limit(limits: &[Limit]) -> bool
    ensures { result ≡ list_all (λ l. is_limit (limit_of l)) limits.now }
{
    limits.iter().all(is_limit)
}

fn is_below(a: Limit, b: Limit) -> bool
    ensures { result ≡ limit_lt (limit_of a) (limit_of b) }
{
    match (a, b) {
        (Limit::Below(a), Limit::Below(b)) => a.0 < b.0,
        (Limit::Below(_), Limit::Infinite) => true,
        (Limit::Infinite, _) => false,
    }
}

// Whether each limit is below the next.
fn ascends(limits: &[Limit]) -> bool
    ensures { result ≡ ascends (limits_of limits.now) }
{
    match limits {
        [] => true,
        [a, rest @ ..] => match rest {
            [] => true,
            [b, ..] => is_below(*a, *b) && ascends(rest),
        },
    }
}

#[tactic(auto, using(crate::proofs::Limits::list_all_limits))]
fn are_limits(limits: &[Limit]) -> bool
    ensures { result ≡ (list_all is_limit (limits_of limits.now) && ascends (limits_of limits.now)) }
{
    each_is_limit(limits) && ascends(limits)
}

fn bins_of(items: &[Value]) -> Result<ArrayVec<Limit, 64>, ValueFault>
    ensures { seen_by (λ v. limits_of v.items) result ≡ (if has_early_inf (items_view items.now) then Err OtherKind else ranged (λ limits. list_all is_limit limits && ascends limits) (ranged (are_at_most 64) (each (λ d. if is_inf d then Ok Infinite else mapped Below (decimal d)) (items_view items.now)))) }
{
    if has_early_inf(items) {
        return Err(ValueFault::Kind);
    }
    let limits: ArrayVec<Limit, 64> = each(items, ())?;
    if are_limits(limits.as_slice()) {
        Ok(limits)
    } else {
        Err(ValueFault::Range)
    }
}

/// The bins that an entry of a histogram has to have.
pub(crate) fn required_bins(table: &Table, name: &str) -> Result<ArrayVec<Limit, 64>, ValueFault>
    ensures { seen_by (λ v. limits_of v.items) result
        ≡ required bins_read (get_member name.now (table_view table.now)) }
{
    match found(table, name) {
        Some(Value::Array(items)) => bins_of(items.as_slice()),
        _ => Err(ValueFault::Kind),
    }
}
