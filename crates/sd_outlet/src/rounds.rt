ghost use Rattle.std.specs.Prelude.{◌≡◌, ℕ, List, ◌++◌, map, Option, Some};
ghost use Rattle.sd_model_outside.specs.Outside.{Object, BackendText, Rounds, lists_of};
ghost use Rattle.sd_outlet.specs.Lists.{content_lists, whole_list};
ghost use Rattle.sd_outlet.specs.declared.worked.Worked.{Worked as Count};
ghost use Rattle.sd_outlet.specs.Worked.{HasListsOf, HasWorked};

/// A backend that tells its lists has, behind those that it had, one for each text that was to be written, in order: the whole
/// text, ended, or where that round failed a prefix of it, not ended, or none. Where no round failed, the new lists are just
/// the texts.
pub fn worked_texts_are_lists()
    ensures lists { (texts : List (List ℕ)) (w : Count) (rounds : List BackendText) (open_list : Option (List ℕ)) (old new : Object)
        → old.content ≡ Rounds rounds open_list → HasWorked texts w old new
        → HasListsOf texts (lists_of rounds open_list) new.content }
    ensures whole { (texts : List (List ℕ)) (w : Count) (rounds : List BackendText) (open_list : Option (List ℕ)) (old new : Object)
        → old.content ≡ Rounds rounds open_list → HasWorked texts w old new → w.faults ≡ 0
        → content_lists new.content ≡ Some (lists_of rounds open_list ++ map whole_list texts) }
{}
