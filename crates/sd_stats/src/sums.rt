ghost use Rattle.std.specs.Prelude.{◌≡◌, ◌*◌, ◌^◌, ◌<◌, ◌≤◌, pos, ◌-ℤ◌, ◌≤ℤ◌, unsigned_abs, length, sum_by};
ghost use Rattle.sd_model_shard.specs.Values.{total, mean, median, square, sum_squares, deviation};
ghost use Rattle.sd_stats.specs.Timer.{numbers, IsTimerValue, AreTimerValues};

use sd_decimal::{Micro, Sum, ratio, root};

const MILLION: u64 = 1_000_000;

/// The sum of the magnitudes of numbers.
fn magnitude(values: &[Micro]) -> u128
    requires { sum_by (λ v. unsigned_abs v.0) values.now < 2 ^ 128 }
    ensures { result ≡ sum_by (λ v. unsigned_abs v.0) values.now }
{
    values.iter().map(|v| u128::from(v.0.unsigned_abs())).sum()
}

/// The sum of values.
pub(crate) fn total(values: &[Micro]) -> Sum
    requires { AreTimerValues values.now }
    ensures value { result.0 ≡ total (numbers values.now) }
    ensures bound { unsigned_abs result.0 ≤ 10 ^ 23 }
{
    Sum(magnitude(values) as i128)
}

/// The mean of values.
pub(crate) fn mean(values: &[Micro]) -> Sum
    requires values { AreTimerValues values.now }
    requires some { 0 < length values.now }
    ensures { result.0 ≡ mean (numbers values.now) }
{
    ratio(total(values), values.len() as u64)
}

/// The square of the distance between a value and a number.
fn squared_distance(value: Micro, from: Micro) -> u128
    requires value { IsTimerValue value }
    requires from { IsTimerValue from }
    ensures value { result ≡ square (value.0 -ℤ from.0) }
    ensures bound { result ≤ 10 ^ 32 }
{
    let distance = u128::from(value.0.abs_diff(from.0));
    distance * distance
}

/// The sum of the squares of the distances of values from a number.
fn squared_distances(values: &[Micro], from: Micro) -> u128
    requires values { AreTimerValues values.now }
    requires from { IsTimerValue from }
    ensures value { result ≡ sum_by (λ v. square (v.0 -ℤ from.0)) values.now }
    ensures bound { result ≤ 2 ^ 20 * 10 ^ 32 }
{
    let mut sum = 0;
    for value in values {
        sum += squared_distance(*value, from);
    }
    sum
}

/// The sum of the squares of values, rounded once.
pub(crate) fn sum_squares(values: &[Micro]) -> Sum
    requires { AreTimerValues values.now }
    ensures { result.0 ≡ sum_squares (numbers values.now) }
{
    ratio(Sum(squared_distances(values, Micro(0)) as i128), MILLION)
}

/// A mean as a value.
fn as_value(mean: Sum) -> Micro
    requires low { pos 0 ≤ℤ mean.0 }
    requires high { mean.0 ≤ℤ pos (10 ^ 16) }
    ensures same { result.0 ≡ mean.0 }
    ensures value { IsTimerValue result }
{
    Micro(mean.0 as i64)
}

/// The standard deviation of values of this mean.
pub(crate) fn deviation(values: &[Micro], center: Sum) -> Sum
    requires values { AreTimerValues values.now }
    requires some { 0 < length values.now }
    requires mean { center.0 ≡ mean (numbers values.now) }
    ensures { result.0 ≡ pos (deviation (numbers values.now)) }
{
    let spread = squared_distances(values, as_value(center));
    Sum(i128::from(root(spread / values.len() as u128)))
}

/// The median of values in order: the mean of the two middle ones, which are one where their number is odd.
pub(crate) fn median(values: &[Micro]) -> Sum
    requires values { AreTimerValues values.now }
    requires some { 0 < length values.now }
    ensures { result.0 ≡ median (numbers values.now) }
{
    let middle = [values[(values.len() - 1) / 2], values[values.len() / 2]];
    mean(&middle)
}

/// A value as a sum of one.
pub(crate) fn as_sum(value: Micro) -> Sum
    ensures { result.0 ≡ value.0 }
{
    Sum(i128::from(value.0))
}
