ghost use Rattle.std.specs.Prelude.{◌≡◌, ◌≤◌, length, map, not, count_by, ◌&&◌};
ghost use Rattle.sd_model_shard.specs.Values.{bins as bins_of, is_below};
ghost use Rattle.sd_plan.specs.Entries.{limit_of, limits_of};
ghost use Rattle.sd_stats.specs.Seen.{timer_seen};
ghost use Rattle.sd_record.specs.Row.{bin_view};

use crate::row::{Bin, Bins};
use sd_decimal::{Limit, Micro};
use sd_stats::TimerStats;

/// Puts the bins of a timer at these limits in place of those that were there: each begins where the one before it ends, and
/// the first at 0.
pub(crate) fn put_bins(stats: &TimerStats<'_>, limits: &[Limit], bins: &mut Bins)
    requires few { length limits.now ≤ 64 }
    ensures { map bin_view bins.new.items ≡ bins_of (limits_of limits.now) (timer_seen stats.now).values }
{
    bins.clear();
    let mut from = Limit::Below(Micro(0));
    for below in limits {
        bins.push(Bin {
            below: *below,
            count: count_between(stats, from, *below),
        });
        from = *below;
    }
}

/// How many values of a timer are below a limit and not below another.
fn count_between(stats: &TimerStats<'_>, from: Limit, below: Limit) -> u64
    ensures { result ≡ count_by (λ v. not (is_below v (limit_of from)) && is_below v (limit_of below)) (timer_seen stats.now).values }
{
    match from {
        Limit::Below(from) => stats.bin(from, below),
        Limit::Infinite => 0,
    }
}
