ghost use Rattle.std.specs.Prelude.{◌≡◌, []};
ghost use Rattle.sd_model_outside.specs.Outside.{Content, appended};
ghost use Rattle.sd_outside.specs.Turns.{FitsLastCount};

/// A write of nothing changes nothing.
pub fn empty_write()
    ensures { (w : Content) → FitsLastCount w → appended w [] ≡ w }
{}
