use arrayvec::ArrayVec;
use sd_decimal::Micro;
use std::marker::Model;

/// The thresholds of timers, in the order of the file: at most 16, each from -100 to 100 and not 0, and no two
/// equal.
#[derive(Debug, Drop)]
pub struct Thresholds {
    numbers: ArrayVec<Micro, 16>,
}

impl Model for Thresholds {
    ghost use Rattle.std.specs.Prelude.{ℤ, List};
    ghost use Rattle.sd_law_settings.specs.Ranges.{AreThresholds};
    ghost use Rattle.sd_plan.specs.Values.{micros};

    ghost Value = { List ℤ };

    ghost view = { λ t. micros t.numbers.items };

    ghost invariant = { λ t. AreThresholds (micros t.numbers.items) };
}

impl Thresholds {
    ghost use Rattle.std.specs.Prelude.{◌≡◌};
    ghost use Rattle.sd_law_settings.specs.Ranges.{AreThresholds};
    ghost use Rattle.sd_plan.specs.Values.{IsSetting, micros};

    /// Thresholds that are in range.
    pub fn of(numbers: ArrayVec<Micro, 16>) -> Thresholds
        requires { AreThresholds (micros numbers.items) }
        ensures { result ≡ micros numbers.items }
    {
        Thresholds { numbers }
    }

    /// The numbers.
    pub fn as_slice(&self) -> &[Micro]
        ensures { IsSetting AreThresholds self.now (micros result.now) }
    {
        self.numbers.as_slice()
    }
}
