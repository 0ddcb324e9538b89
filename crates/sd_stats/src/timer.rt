ghost use Rattle.sd_stats.specs.Timer.{IsTimer};
ghost use Rattle.std.specs.Prelude.{not, count_by, ◌&&◌};
ghost use Rattle.sd_model_shard.specs.Values.{is_below};

use crate::bins::count_below;
use crate::figures::{PctStats, Whole};
use crate::sums::{as_sum, deviation, mean, median, sum_squares, total};
use crate::threshold_parts::{part_count, part_of, part_stats};
use sd_decimal::{Limit, Micro, Sum, per_second};

/// A timer: its values from the least to the greatest, what its samples weigh together, and the flush interval in milliseconds.
#[derive(Debug, Drop)]
pub struct TimerStats<'a> {
    values: &'a mut [Micro],
    weight: Sum,
    interval_ms: u32,
    ghost kept: { IsTimer values.now weight interval_ms },
}

impl<'a> TimerStats<'a> {
    ghost use Rattle.std.specs.Prelude.{◌≡◌, ◌≢◌, ◌*◌, ◌^◌, ◌<◌, ◌≤◌, unsigned_abs, length, All, option_map};
    ghost use Rattle.sd_model_text.specs.Numbers.{Below};
    ghost use Rattle.sd_model_shard.specs.Values.{timer_of, whole_statistics, pct};
    ghost use Rattle.sd_stats.specs.Timer.{numbers, IsTimerValue, whole_of, part_of, limit_of};
    ghost use Rattle.sd_stats.specs.Seen.{timer_seen, lender};

    /// The timer of these values. The slice is sorted.
    pub fn of(values: &'a mut [Micro], weight: Sum, interval_ms: u32) -> TimerStats<'a>
        requires some { 0 < length values.old }
        requires many { length values.old ≤ 2 ^ 20 }
        requires range { All IsTimerValue values.old }
        requires weight { unsigned_abs weight.0 ≤ 17 * 10 ^ 34 }
        requires interval { 0 < interval_ms }
        ensures timer { timer_seen result ≡ timer_of (numbers values.old) weight.0 interval_ms }

        // The slice that was given is kept, and so ends as these values in order.
        ensures slice { lender result ≡ values.entry.ghost_name }
    {
        values.sort_unstable();
        TimerStats {
            values,
            weight,
            interval_ms,
        }
    }

    /// The statistics of all values.
    pub fn whole(&self) -> Whole
        ensures { whole_of result ≡ whole_statistics (timer_seen self.now) }
    {
        let mean = mean(self.values);
        Whole {
            std: deviation(self.values, mean),
            upper: as_sum(self.values[self.values.len() - 1]),
            lower: as_sum(self.values[0]),
            count: self.weight,
            count_ps: per_second(self.weight, self.interval_ms),
            sum: total(self.values),
            sum_squares: sum_squares(self.values),
            mean,
            median: median(self.values),
        }
    }

    /// The statistics of the part of the values that a threshold takes: so many percent, of the least for a threshold above 0
    /// and of the greatest for one below. None where no value is taken.
    pub fn pct(&self, threshold: Micro) -> Option<PctStats>
        requires some { unsigned_abs threshold.0 ≢ 0 }
        requires hundred { unsigned_abs threshold.0 ≤ 10 ^ 8 }
        ensures { option_map part_of result ≡ pct threshold.0 (timer_seen self.now).values }
    {
        let count = part_count(threshold, self.values.len());
        if count == 0 {
            return None;
        }
        Some(part_stats(part_of(self.values, threshold, count), threshold))
    }

    /// How many values are below a limit and not below `from`.
    pub fn bin(&self, from: Micro, below: Limit) -> u64
        ensures { result ≡ count_by (λ v. not (is_below v (Below from.0)) && is_below v (limit_of below)) (timer_seen self.now).values }
    {
        let before = count_below(self.values, Limit::Below(from));
        count_below(self.values, below).saturating_sub(before) as u64
    }
}
