ghost use Rattle.std.specs.Prelude.{◌≡◌, count_by};
ghost use Rattle.std.specs.Ordering.{int_cmp};
ghost use Rattle.std.specs.List.Sorted.{IsSortedByKey};
ghost use Rattle.sd_model_shard.specs.Values.{is_below};
ghost use Rattle.sd_stats.specs.Timer.{limit_of};

use sd_decimal::{Limit, Micro};

/// How many of values in order are below a limit.
pub(crate) fn count_below(values: &[Micro], limit: Limit) -> usize
    requires { IsSortedByKey (λ v. v.0) int_cmp values.now }
    ensures { result ≡ count_by (λ v. is_below v.0 (limit_of limit)) values.now }
{
    match limit {
        Limit::Below(limit) => values.partition_point(|v| v.0 < limit.0),
        Limit::Infinite => values.len(),
    }
}
