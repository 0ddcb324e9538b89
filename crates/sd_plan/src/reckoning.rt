ghost use Rattle.sd_law_settings.specs.Ranges.{IsWithin};

use crate::calculated::Calculated;
use crate::histograms::Histograms;
use crate::thresholds::Thresholds;
use arrayvec::ArrayVec;
use sd_decimal::Micro;

/// What a record is made by: the interval of its rates in milliseconds, which isn't 0, the thresholds and
/// the bins of timers, and the classes of their lines that are chosen.
#[derive(Debug, Drop)]
pub struct Reckoning {
    pub interval_ms: u32,
    pub thresholds: Thresholds,
    pub histograms: Histograms,
    pub calculated: Calculated,
    ghost interval: { IsWithin 1 86400000 interval_ms },
}

impl Reckoning {
    ghost use Rattle.std.specs.Prelude.{◌≡◌};
    ghost use Rattle.sd_model_settings.specs.Settings.{plan_of, default_settings};
    ghost use Rattle.sd_plan.specs.Plan.{plan_view};

    /// What the defaults make: 10 seconds, the threshold 90, no bins, and all lines of timers.
    #[tactic(auto, using(sd_law_settings::proofs::DefaultsInRange::defaults_in_range), unfolding(sd_model_settings::proofs::OnLiterals::defaults_on_literals))]
    pub fn plain() -> Reckoning
        ensures { plan_view result ≡ plan_of default_settings }
    {
        let mut numbers = ArrayVec::new();
        numbers.push(Micro(90_000_000));
        Reckoning {
            interval_ms: 10_000,
            thresholds: Thresholds::of(numbers),
            histograms: Histograms::of(ArrayVec::new()),
            calculated: Calculated::of(ArrayVec::new()),
        }
    }
}
