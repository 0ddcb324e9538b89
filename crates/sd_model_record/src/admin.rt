ghost use Rattle.std.specs.Prelude.{◌≡◌, ◌≢◌, ℕ, List, Ok};
ghost use Rattle.sd_model_text.specs.Names.{Kind, Set};
ghost use Rattle.sd_model_record.specs.Admin.{Show, command};

/// No command shows sets.
pub fn sets_are_not_shown()
    ensures { (line : List ℕ) (kind : Kind) → command line ≡ Ok (Show kind) → kind ≢ Set }
{}
