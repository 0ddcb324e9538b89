ghost use Rattle.std.specs.Prelude.{◌≡◌, ◌^◌, ◌<◌, ◌≤◌, unsigned_abs, length, if◌then◌else◌, take, drop, ◌-◌, ◌*◌, ◌==◌};
ghost use Rattle.sd_model_shard.specs.Values.{first, last, is_upper, part};
ghost use Rattle.sd_stats.specs.Timer.{numbers, AreTimerValues, part_of as seen_part};
ghost use Rattle.sd_model_text.specs.Numbers.{rounded};

use crate::figures::PctStats;
use crate::sums::{as_sum, mean, sum_squares, total};
use sd_decimal::{Micro, Sum};

// A threshold of 100, and half of it, in millionths.
const HUNDRED: u64 = 100_000_000;

const FIFTY: u64 = 50_000_000;

/// How many of n values a threshold takes: the whole number nearest to so many percent of n, and 1 of one value.
pub(crate) fn part_count(threshold: Micro, n: usize) -> usize
    requires hundred { unsigned_abs threshold.0 ≤ 10 ^ 8 }
    requires many { n ≤ 2 ^ 20 }
    ensures value { result ≡ (if n == 1 then 1 else rounded (unsigned_abs threshold.0 * n) 100000000) }
    ensures bound { result ≤ n }
{
    if n == 1 {
        return 1;
    }
    ((threshold.0.unsigned_abs() * n as u64 + FIFTY) / HUNDRED) as usize
}

/// So many values, from the end that a threshold takes: the least for a threshold above 0, the greatest for one below.
pub(crate) fn part_of(values: &[Micro], threshold: Micro, count: usize) -> &[Micro]
    requires values { AreTimerValues values.now }
    requires count { count ≤ length values.now }
    ensures part { numbers result.now ≡ (if is_upper threshold.0 then take count (numbers values.now) else drop (length (numbers values.now) - count) (numbers values.now)) }
    ensures values { AreTimerValues result.now }
    ensures len { length result.now ≡ count }
{
    if threshold.0 > 0 {
        &values[..count]
    } else {
        &values[values.len() - count..]
    }
}

/// The end of a part that is inside the list: the last of the least values, or the first of the greatest.
fn edge_of(part: &[Micro], threshold: Micro) -> Sum
    requires some { 0 < length part.now }
    ensures { result.0 ≡ (if is_upper threshold.0 then last (numbers part.now) else first (numbers part.now)) }
{
    if threshold.0 > 0 {
        as_sum(part[part.len() - 1])
    } else {
        as_sum(part[0])
    }
}

/// The statistics of a part.
pub(crate) fn part_stats(values: &[Micro], threshold: Micro) -> PctStats
    requires values { AreTimerValues values.now }
    requires some { 0 < length values.now }
    ensures { seen_part result ≡ part threshold.0 (numbers values.now) }
{
    PctStats {
        threshold,
        count: values.len() as u64,
        mean: mean(values),
        edge: edge_of(values, threshold),
        sum: total(values),
        sum_squares: sum_squares(values),
    }
}
