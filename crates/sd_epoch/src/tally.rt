ghost use Rattle.std.specs.Prelude.{◌≡◌, ◌+◌, ◌*◌, ◌^◌, ◌<◌, ◌≤◌, ◌+ℤ◌, pos, unsigned_abs};
ghost use Rattle.sd_model_shard.specs.Rows.{sample_weight, gauge_after};
ghost use Rattle.sd_epoch.specs.Since.{gauge_by};

use sd_decimal::{Micro, Sum, weigh};
use sd_key::Kind;
use sd_line::Sample;
use sd_rows::Tally;

/// The value 1.
const ONE: Micro = Micro(1_000_000);

/// The greatest magnitude of a gauge, 10^12.
const GAUGE_LIMIT: i64 = 1_000_000_000_000_000_000;

/// The value of a tally as a gauge, as a sum.
pub(crate) fn gauge_sum(tally: Tally) -> Sum
    ensures { result.0 ≡ tally.gauge.0 }
{
    Sum(i128::from(tally.gauge.0))
}

/// A tally with a sample of its row more.
pub(crate) fn with_sample(tally: Tally, s: &Sample) -> Tally
    requires few { tally.samples < 2 ^ 38 }
    requires bound { unsigned_abs tally.weight.0 ≤ tally.samples * 10 ^ 24 }
    ensures samples { result.samples ≡ tally.samples + 1 }
    ensures gauge { result.gauge.0 ≡ gauge_by s.now.kind tally.gauge.0 s.now }
    ensures weight { result.weight.0 ≡ tally.weight.0 +ℤ sample_weight s.now.kind s.now }
    ensures bound { unsigned_abs result.weight.0 ≤ result.samples * 10 ^ 24 }
{
    let weight = sample_weight(s);
    Tally {
        samples: tally.samples + 1,
        gauge: gauge_by(tally.gauge, s),
        weight: Sum(tally.weight.0 + weight.0),
    }
}

/// The tally of a row without samples.
pub(crate) fn empty_tally(base: Micro) -> Tally
    ensures samples { result.samples ≡ 0 }
    ensures gauge { result.gauge.0 ≡ base.0 }
    ensures weight { result.weight.0 ≡ pos 0 }
{
    Tally {
        samples: 0,
        gauge: base,
        weight: Sum(0),
    }
}

/// How much a sample weighs in a row of its kind.
fn sample_weight(s: &Sample) -> Sum
    ensures value { result.0 ≡ sample_weight s.now.kind s.now }
    ensures bound { unsigned_abs result.0 ≤ 10 ^ 24 }
{
    match s.kind {
        Kind::Counter => weigh(s.value, s.rate),
        Kind::Timer => weigh(ONE, s.rate),
        Kind::Gauge | Kind::Set => Sum(0),
    }
}

/// The value as a gauge after a sample of its row.
fn gauge_by(value: Micro, s: &Sample) -> Micro
    ensures { result.0 ≡ gauge_by s.now.kind value.0 s.now }
{
    match s.kind {
        Kind::Gauge => gauge_after(value, s),
        Kind::Counter | Kind::Timer | Kind::Set => value,
    }
}

/// The value of a gauge after a sample.
fn gauge_after(value: Micro, s: &Sample) -> Micro
    ensures { result.0 ≡ gauge_after value.0 s.now }
{
    let next = if s.signed {
        value.0.saturating_add(s.value.0)
    } else {
        s.value.0
    };
    Micro(next.clamp(-GAUGE_LIMIT, GAUGE_LIMIT))
}
