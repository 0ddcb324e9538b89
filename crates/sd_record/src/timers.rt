ghost use Rattle.std.specs.Prelude.{◌≡◌, ◌*◌, ◌^◌, ◌≤◌, length, map, unsigned_abs, All};
ghost use Rattle.sd_model_record.specs.Record.{timer_figures, limits_for};
ghost use Rattle.sd_plan.specs.Entries.{limits_of, classes_view};
ghost use Rattle.sd_plan.specs.Plan.{plan_view};
ghost use Rattle.sd_stats.specs.Timer.{numbers, IsTimerValue};
ghost use Rattle.sd_record.specs.Row.{timer_view};

use crate::bins::put_bins;
use crate::row::TimerRow;
use crate::timer_parts::put_parts;
use sd_decimal::{Limit, Micro, Sum, per_second};
use sd_key::{Key, has_part};
use sd_plan::{Classes, Reckoning};
use sd_stats::TimerStats;

/// Puts the timer of this key, weight and values into `timer`, in place of what it has. The slice is sorted.
pub(crate) fn put_timer_of(
    key: &Key,
    weight: Sum,
    values: &mut [Micro],
    plan: &Reckoning,
    timer: &mut TimerRow,
)
    requires weight { unsigned_abs weight.0 ≤ 17 * 10 ^ 34 }
    requires range { All IsTimerValue values.old }
    requires many { length values.old ≤ 2 ^ 20 }
    ensures { timer_view timer.new ≡ timer_figures (plan_view plan.now) key.now weight.0 (numbers values.old) }
{
    timer.count = weight;
    timer.count_ps = per_second(weight, plan.interval_ms);
    if values.is_empty() {
        timer.whole = None;
        timer.parts.clear();
        timer.bins.clear();
        return;
    }
    let stats = TimerStats::of(values, weight, plan.interval_ms);
    timer.whole = Some(stats.whole());
    put_parts(&stats, plan.thresholds.as_slice(), &mut timer.parts);
    let limits = limits_for(key, plan.histograms.as_slice());
    put_bins(&stats, limits, &mut timer.bins);
}

/// The limits of the bins of a key: those of the first entry whose metric is part of it.
fn limits_for<'a>(key: &Key, histograms: &'a [Classes]) -> &'a [Limit]
    ensures limits { limits_of result.now ≡ limits_for key.now (map classes_view histograms.now) }
    ensures few { length result.now ≤ 64 }
{
    for classes in histograms {
        if has_part(key, classes.metric.as_slice()) {
            return classes.limits.as_slice();
        }
    }
    &[]
}
