ghost use Rattle.std.specs.Prelude.{◌≡◌, ℕ, ◌<◌, ◌≤◌, true, false};
ghost use Rattle.sd_model_ring.specs.Ring.{is_up};
ghost use Rattle.sd_model_live.specs.Proxy.{all_of};

/// The set of all of so many nodes has each of them, and no other.
pub fn all_nodes_are_up()
    ensures up { (nodes node : ℕ) → node < nodes → is_up (all_of nodes) node ≡ true }
    ensures no_more { (nodes node : ℕ) → nodes ≤ node → is_up (all_of nodes) node ≡ false }
{}
