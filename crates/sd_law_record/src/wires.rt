ghost use Rattle.std.specs.Prelude.{◌≡◌, ℕ, List, ◌++◌};
ghost use Rattle.sd_model_outside.specs.Outside.{Object, Packets, RoseBy, Used};
ghost use Rattle.sd_model_outside.specs.Uses.{AfterSends, WireSend};
ghost use Rattle.sd_law_record.specs.Sends.{failed_among, packets_of};

/// A wire that tells its packets has those that were sent behind those that it had, in order, but for those whose send failed.
/// Its count of faults rose by as many as failed, or by more; and where none did, it stayed. So a wire lacks at most as many
/// packets as its faults rose by. It is where it was opened.
pub fn sends_are_packets()
    ensures packets { (sends : List WireSend) (packets : List (List ℕ)) (old new : Object)
        → old.content ≡ Packets packets → AfterSends sends old new → new.content ≡ Packets (packets ++ packets_of sends) }
    ensures used { (sends : List WireSend) (old new : Object) → AfterSends sends old new → Used old new }
    ensures faults { (sends : List WireSend) (old new : Object) → AfterSends sends old new → RoseBy (failed_among sends) old.faults new.faults }
    ensures steady { (sends : List WireSend) (old new : Object)
        → AfterSends sends old new → failed_among sends ≡ 0 → new.faults ≡ old.faults }
{}
