//! Which backends are used: those that the settings name.
ghost use Rattle.std.specs.Prelude.{◌≡◌};
ghost use Rattle.sd_model_outside.specs.Backend.{Backend};
ghost use Rattle.sd_model_replay.specs.Replay.{is_used};
ghost use Rattle.sd_outside.specs.Backends.{at, uses};

use sd_config::Settings;
use sd_outside::{Back, BackendKind, Backs, VisitBackend};
use sd_run::names_backend;

/// Says of each backend whether these settings name it.
#[derive(Drop)]
struct Naming<'s> {
    settings: &'s Settings,
}

impl<B> VisitBackend<Back<B>> for Naming<'_> {
    ghost use Rattle.std.specs.Prelude.{◌≡◌, ⊤};
    ghost use Rattle.sd_model_settings.specs.Settings.{Settings as ModelSettings};
    ghost use Rattle.sd_model_replay.specs.Replay.{is_used};

    ghost Fixed = { ModelSettings };

    ghost fixed = { λ naming. naming.settings.now };

    ghost allows = { λ s back. ⊤ };

    ghost visits = { λ s b old new. (new.is_used ≡ is_used s b) × (new.object ≡ old.object) };

    fn visit(&mut self, kind: BackendKind, back: &mut Back<B>) {
        back.is_used = names_backend(self.settings, kind.name().as_bytes());
    }
}

/// Has just those backends used that the settings name.
pub fn use_named<B>(backs: &mut Backs<B>, settings: &Settings)
    ensures uses { uses backs.new ≡ is_used settings.now }
    ensures objects { (b : Backend) → (at backs.new b).object ≡ (at backs.old b).object }
{
    backs.visit_each(&mut Naming { settings });
}
