ghost use Rattle.std.specs.Prelude.{◌≡◌, ℕ, List, filter, map, Option};
ghost use Rattle.sd_model_outside.specs.Outside.{Object, RoseBy, BackendText, Rounds, Used, lists_of};
ghost use Rattle.sd_model_outside.specs.Uses.{AfterDeliveries, Delivery, missed};
ghost use Rattle.sd_outlet.specs.Lists.{HasLists, LeaveLists, texts_written, whole_list};

/// A backend that tells its lists has those of the flushes behind those that it had: the whole text of each flush
/// that was written, ended; and of each that failed a prefix of its text, not ended, or none. So its ended lists
/// are just the texts of the flushes that were written. Its count of faults rose by as many as failed there, or by more;
/// and where none did, it stayed.
pub fn deliveries_are_lists()
    ensures lists { (deliveries : List Delivery) (rounds : List BackendText) (open_list : Option (List ℕ)) (old new : Object)
        → old.content ≡ Rounds rounds open_list → AfterDeliveries deliveries old new → HasLists deliveries (lists_of rounds open_list) new.content }
    ensures written { (deliveries : List Delivery) (lists : List BackendText)
        → LeaveLists deliveries lists → filter (λ list. list.is_ended) lists ≡ map whole_list (texts_written deliveries) }
    ensures used { (deliveries : List Delivery) (old new : Object) → AfterDeliveries deliveries old new → Used old new }
    ensures faults { (deliveries : List Delivery) (old new : Object)
        → AfterDeliveries deliveries old new → RoseBy (missed deliveries) old.faults new.faults }
    ensures steady { (deliveries : List Delivery) (old new : Object)
        → AfterDeliveries deliveries old new → missed deliveries ≡ 0 → new.faults ≡ old.faults }
{}
