use crate::entries::Classes;
use arrayvec::ArrayVec;
use std::marker::Model;

/// The bins of timers by parts of their names, in the order of the file: at most 16.
#[derive(Debug, Drop)]
pub struct Histograms {
    entries: ArrayVec<Classes, 16>,
}

impl Model for Histograms {
    ghost use Rattle.std.specs.Prelude.{List, map};
    ghost use Rattle.sd_model_settings.specs.Entries.{Classes as ModelClasses};
    ghost use Rattle.sd_law_settings.specs.Ranges.{AreHistograms};
    ghost use Rattle.sd_plan.specs.Entries.{classes_view};

    ghost Value = { List ModelClasses };

    ghost view = { λ h. map classes_view h.entries.items };

    ghost invariant = { λ h. AreHistograms (map classes_view h.entries.items) };
}

impl Histograms {
    ghost use Rattle.std.specs.Prelude.{◌≡◌, map};
    ghost use Rattle.sd_law_settings.specs.Ranges.{AreHistograms};
    ghost use Rattle.sd_plan.specs.Entries.{classes_view};
    ghost use Rattle.sd_plan.specs.Values.{IsSetting};

    /// Histograms that are in range.
    pub fn of(entries: ArrayVec<Classes, 16>) -> Histograms
        requires { AreHistograms (map classes_view entries.items) }
        ensures { result ≡ map classes_view entries.items }
    {
        Histograms { entries }
    }

    /// The entries.
    pub fn as_slice(&self) -> &[Classes]
        ensures { IsSetting AreHistograms self.now (map classes_view result.now) }
    {
        self.entries.as_slice()
    }
}
