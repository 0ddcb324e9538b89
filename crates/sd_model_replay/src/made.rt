ghost use Rattle.std.specs.Prelude.{ℕ, ◌<◌, ◌^◌};
ghost use Rattle.std.specs.List.{AllByRecursion};
ghost use Rattle.sd_model_replay.specs.Script.{IsLegal};
ghost use Rattle.sd_model_replay.specs.MadeScript.{made_commands};

/// Each record of a made script is legal where there are two receivers.
pub fn made_records_are_legal()
    ensures { (n : ℕ) → n < 2 ^ 32 → AllByRecursion (IsLegal 2) (made_commands n) }
{}
