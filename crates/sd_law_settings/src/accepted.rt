ghost use Rattle.std.specs.Prelude.{ℕ, List, IfOk};
ghost use Rattle.sd_model_settings.specs.Settings.{settings};
ghost use Rattle.sd_law_settings.specs.Ranges.{InRange};

/// The values of every accepted file are in range, the defaults among them.
#[tactic(auto, using(crate::proofs::SettingsInRange::settings_in_range))]
pub fn accepted_values()
    ensures { (bytes : List ℕ) → IfOk (settings bytes) InRange }
{}
