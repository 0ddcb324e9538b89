ghost use Rattle.std.specs.Prelude.{◌≡◌, ◌≢◌, ◌↔◌, ℕ, ◌<◌, List, length, None, true, false};
ghost use Rattle.sd_model_settings.specs.Entries.{Node};
ghost use Rattle.sd_model_ring.specs.Ring.{is_up};
ghost use Rattle.sd_model_proxy.specs.Routes.{Bad, Unowned, To, key_of_line, route};

/// A line goes to one of the nodes that are up. It is bad exactly where it has no key; it has no owner exactly where it has
/// a key and no node is up. And it goes by its key alone.
pub fn lines_go_to_owners()
    ensures node { (line : List ℕ) (nodes : List Node) (up place : ℕ) → route line nodes up ≡ To place → place < length nodes }
    ensures up { (line : List ℕ) (nodes : List Node) (up place : ℕ) → route line nodes up ≡ To place → is_up up place ≡ true }
    ensures bad { (line : List ℕ) (nodes : List Node) (up : ℕ) → (route line nodes up ≡ Bad) ↔ (key_of_line line ≡ None) }
    ensures unowned { (line : List ℕ) (nodes : List Node) (up : ℕ)
        → (route line nodes up ≡ Unowned) ↔ ((key_of_line line ≢ None) × ((place : ℕ) → place < length nodes → is_up up place ≡ false)) }
    ensures key { (one other : List ℕ) (nodes : List Node) (up : ℕ) → key_of_line one ≡ key_of_line other → route one nodes up ≡ route other nodes up }
{}
