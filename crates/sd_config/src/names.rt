ghost use Rattle.std.specs.Prelude.{◌≡◌};
ghost use Rattle.sd_model_settings.specs.Settings.{names_of};

use crate::settings::Settings;
use sd_plan::{Names, Namespace, copied};

/// What is made of the settings in force: `Names::of(&settings)`.
pub trait NamesOf {
    /// The names that the settings make.
    fn of(settings: &Settings) -> Self;
}

impl NamesOf for Names {
    fn of(settings: &Settings) -> Names
        ensures { result ≡ names_of settings.now }
    {
        let namespace = Namespace {
            legacy: settings.legacy_namespace(),
            global_prefix: copied(settings.global_prefix()),
            prefix_counter: copied(settings.prefix_counter()),
            prefix_timer: copied(settings.prefix_timer()),
            prefix_gauge: copied(settings.prefix_gauge()),
            prefix_set: copied(settings.prefix_set()),
            global_suffix: copied(settings.global_suffix()),
        };
        Names::new(namespace, copied(settings.prefix_stats()))
    }
}
