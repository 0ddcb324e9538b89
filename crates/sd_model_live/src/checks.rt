ghost use Rattle.std.specs.Prelude.{◌≡◌, ℕ, List, Option, count_by};
ghost use Rattle.sd_model_outside.specs.Outside.{Object, Place, RoseBy};
ghost use Rattle.sd_model_outside.specs.Uses.{AreAsked};
ghost use Rattle.std.specs.Option.{is_none};

/// The count of faults of what was asked rose by as many as questions failed, up to its end, and stayed where none did.
pub fn failed_questions_are_faults()
    ensures rose { (places : List Place) (answers : List (Option (List ℕ))) (old new : Object) → AreAsked places answers old new
        → RoseBy (count_by is_none answers) old.faults new.faults }
    ensures steady { (places : List Place) (answers : List (Option (List ℕ))) (old new : Object) → AreAsked places answers old new
        → count_by is_none answers ≡ 0 → new.faults ≡ old.faults }
{}
