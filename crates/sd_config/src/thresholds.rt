ghost use Rattle.std.specs.Prelude.{◌≡◌, not, unsigned_abs, nat_le, ◌==◌, ◌&&◌};
ghost use Rattle.std.specs.List.{list_all};
ghost use Rattle.std.specs.Ordering.{int_eq};
ghost use Rattle.toml.specs.View.{view};
ghost use Rattle.sd_model_settings.specs.Entries.{thresholds};
ghost use Rattle.sd_config.specs.Answers.{seen_by};
ghost use Rattle.sd_plan.specs.Values.{micros};
ghost use Rattle.sd_model_settings.specs.Values.{are_distinct};

use crate::fault::ValueFault;
use crate::lists::{Element, are_distinct, each, one_or_list};
use crate::values;
use arrayvec::ArrayVec;
use sd_decimal::Micro;
use toml::Value;

impl Element<()> for Micro {
    ghost use Rattle.std.specs.Prelude.{ℤ};
    ghost use Rattle.sd_model_settings.specs.Values.{decimal};

    ghost Seen = { ℤ };

    ghost seen = { λ m. m.0 };

    ghost reads = { λ rule. decimal };

    fn read(value: &Value, _rule: ()) -> Result<Micro, ValueFault> {
        values::decimal(value)
    }
}

fn is_threshold(number: &Micro) -> bool
    ensures { result ≡ (nat_le (unsigned_abs number.now.0) 100000000 && not (unsigned_abs number.now.0 == 0)) }
{
    number.0.unsigned_abs() <= 100_000_000 && number.0 != 0
}

fn each_is_threshold(numbers: &[Micro]) -> bool
    ensures { result ≡ list_all (λ m. (nat_le (unsigned_abs m.0) 100000000 && not (unsigned_abs m.0 == 0))) numbers.now }
{
    numbers.iter().all(is_threshold)
}

#[tactic(auto, using(crate::proofs::Micros::list_all_micros, crate::proofs::Micros::are_distinct_micros))]
fn are_thresholds(numbers: &[Micro]) -> bool
    ensures { result ≡ (list_all (λ z. nat_le (unsigned_abs z) 100000000 && not (unsigned_abs z == 0)) (micros numbers.now) && are_distinct int_eq (micros numbers.now)) }
{
    each_is_threshold(numbers) && are_distinct(numbers)
}

/// Decimals as thresholds: one alone, or a list.
pub(crate) fn thresholds_in(value: &Value) -> Result<ArrayVec<Micro, 16>, ValueFault>
    ensures { seen_by (λ v. micros v.items) result ≡ thresholds (view value.now) }
{
    let numbers: ArrayVec<Micro, 16> = each(one_or_list(value), ())?;
    if are_thresholds(numbers.as_slice()) {
        Ok(numbers)
    } else {
        Err(ValueFault::Range)
    }
}
