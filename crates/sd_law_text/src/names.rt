ghost use Rattle.std.specs.Prelude.{◌↔◌, ℕ, List, IsTrue};
ghost use Rattle.sd_model_text.specs.Names.{is_part};
ghost use Rattle.sd_law_text.specs.Bytes.{HasPart};

/// The test by places tells just whether a part stands in a key.
pub fn parts_are_reported()
    ensures { (part key : List ℕ) → IsTrue (is_part part key) ↔ HasPart key part }
{}
