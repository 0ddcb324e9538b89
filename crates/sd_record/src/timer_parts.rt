ghost use Rattle.std.specs.Prelude.{◌≡◌, ◌≤◌, length, map, filter_map, All};
ghost use Rattle.sd_law_settings.specs.Ranges.{IsThreshold};
ghost use Rattle.sd_model_shard.specs.Values.{pct};
ghost use Rattle.sd_plan.specs.Values.{micros};
ghost use Rattle.sd_stats.specs.Seen.{timer_seen};
ghost use Rattle.sd_stats.specs.Timer.{part_of};

use crate::row::Parts;
use sd_decimal::Micro;
use sd_stats::TimerStats;

/// Puts the statistics of a timer at each threshold that takes a value in place of those that were there.
pub(crate) fn put_parts(stats: &TimerStats<'_>, thresholds: &[Micro], parts: &mut Parts)
    requires few { length thresholds.now ≤ 16 }
    requires range { All IsThreshold (micros thresholds.now) }
    ensures { map part_of parts.new.items ≡ filter_map (λ t. pct t (timer_seen stats.now).values) (micros thresholds.now) }
{
    parts.clear();
    for threshold in thresholds {
        if let Some(part) = stats.pct(*threshold) {
            parts.push(part);
        }
    }
}
