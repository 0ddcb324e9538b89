ghost use Rattle.std.specs.Prelude.{◌≢◌, ℕ, ◌-◌, ◌^◌, ◌<◌, ◌≤◌, List, length};
ghost use Rattle.sd_model_settings.specs.Entries.{Node};
ghost use Rattle.sd_model_proxy.specs.Routes.{Unowned, route};
ghost use Rattle.sd_law_run.specs.AllUp.{AreAllUp};

/// Where each node is up, and there is one, each line that isn't bad has an owner. Of at most 64 nodes each is up where all 64 bits
/// are 1.
pub fn all_up_all_owned()
    ensures owned { (line : List ℕ) (nodes : List Node) (up : ℕ) → 0 < length nodes → AreAllUp nodes up → route line nodes up ≢ Unowned }
    ensures bits { (nodes : List Node) → length nodes ≤ 64 → AreAllUp nodes (2 ^ 64 - 1) }
{}
