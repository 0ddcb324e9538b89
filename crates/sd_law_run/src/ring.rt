ghost use Rattle.std.specs.Prelude.{◌≡◌, ◌↔◌, ℕ, List};
ghost use Rattle.sd_model_settings.specs.Entries.{Node};
ghost use Rattle.sd_law_run.specs.Nodes.{owning_node, IsUpAmong, ShareANumber};

/// Which node owns a key doesn't depend on where the nodes stand, if no two that are up have a number in common.
pub fn order_is_free()
    ensures { (key : List ℕ) (nodes others : List Node) (up also : ℕ)
        → ((node : Node) → IsUpAmong nodes up node ↔ IsUpAmong others also node)
        → ((a b : Node) → IsUpAmong nodes up a → IsUpAmong nodes up b → ShareANumber a b → a ≡ b)
        → owning_node key nodes up ≡ owning_node key others also }
{}
