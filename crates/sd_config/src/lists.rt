ghost use Rattle.std.specs.Prelude.{◌≡◌, Result, map};
ghost use Rattle.std.specs.Str.{bytes_eq};
ghost use Rattle.toml.specs.Data.{Data};
ghost use Rattle.toml.specs.View.{view, items_view};
ghost use Rattle.sd_model_settings.specs.Values.{ValueFlaw, each, ranged, are_at_most, listed, one_or_list, are_distinct, text};
ghost use Rattle.sd_config.specs.Answers.{seen_by};
ghost use Rattle.sd_config.specs.Values.{passes};
ghost use Rattle.sd_plan.specs.Values.{name_bytes};

use crate::fault::ValueFault;
use crate::values::{TextRule, text};
use arrayvec::ArrayVec;
use sd_outside::Name;
use toml::Value;

/// What stands in a list, read by a rule; `()` where there is none to choose.
pub(crate) trait Element<R: Copy>: Default + Drop {
    ghost Seen: { Type 0 };

    /// An element as the definitions have it.
    ghost seen: { Self → Seen };

    /// What a value is as an element.
    ghost reads: { R → Data → Result Seen ValueFlaw };

    /// A value as an element.
    fn read(value: &Value, rule: R) -> Result<Self, ValueFault>
        ensures { seen_by seen result ≡ reads rule (view value.now) };
}

impl Element<TextRule> for Name {
    ghost use Rattle.std.specs.Prelude.{ℕ, List};
    ghost use Rattle.sd_model_settings.specs.Values.{text};
    ghost use Rattle.sd_config.specs.Values.{passes};

    ghost Seen = { List ℕ };

    ghost seen = { λ n. n.items };

    ghost reads = { λ rule. text (passes rule) };

    fn read(value: &Value, rule: TextRule) -> Result<Name, ValueFault> {
        text(value, rule)
    }
}

/// Each item as an element, at most `N` of them. An item of another kind comes before one that is out of range,
/// so the items behind such a one are read as well.
pub(crate) fn each<R: Copy, T: Element<R>, const N: usize>(
    items: &[Value],
    rule: R,
) -> Result<ArrayVec<T, N>, ValueFault>
    ensures { seen_by (λ v. map T.seen v.items) result
        ≡ ranged (are_at_most N) (each (T.reads rule) (items_view items.now)) }
{
    let mut elements = ArrayVec::new();
    let mut out_of_range = false;
    for item in items {
        match T::read(item, rule) {
            Ok(element) => {
                if elements.try_push(element).is_err() {
                    out_of_range = true;
                }
            }
            Err(ValueFault::Range) => out_of_range = true,
            Err(ValueFault::Kind) => return Err(ValueFault::Kind),
        }
    }
    if out_of_range {
        Err(ValueFault::Range)
    } else {
        Ok(elements)
    }
}

/// A list of at most `N` elements.
pub(crate) fn listed<R: Copy, T: Element<R>, const N: usize>(
    value: &Value,
    rule: R,
) -> Result<ArrayVec<T, N>, ValueFault>
    ensures { seen_by (λ v. map T.seen v.items) result ≡ listed N (T.reads rule) (view value.now) }
{
    match value {
        Value::Array(items) => each(items.as_slice(), rule),
        _ => Err(ValueFault::Kind),
    }
}

/// The items of a list, or the value alone.
pub(crate) fn one_or_list(value: &Value) -> &[Value]
    ensures { items_view result.now ≡ one_or_list (view value.now) }
{
    match value {
        Value::Array(items) => items.as_slice(),
        _ => std::slice::from_ref(value),
    }
}

/// Whether no two elements are equal.
pub(crate) fn are_distinct<T: PartialEq>(elements: &[T]) -> bool
    ensures { result ≡ are_distinct T.eq elements.now }
{
    match elements {
        [] => true,
        [first, rest @ ..] => !rest.contains(first) && are_distinct(rest),
    }
}

/// A list of at most `N` texts that pass the rule, each at most once.
pub(crate) fn distinct_texts<const N: usize>(
    value: &Value,
    rule: TextRule,
) -> Result<ArrayVec<Name, N>, ValueFault>
    ensures { seen_by (λ v. name_bytes v.items) result
        ≡ ranged (are_distinct bytes_eq) (listed N (text (passes rule)) (view value.now)) }
{
    let texts: ArrayVec<Name, N> = listed(value, rule)?;
    if are_distinct(texts.as_slice()) {
        Ok(texts)
    } else {
        Err(ValueFault::Range)
    }
}
