ghost use Rattle.std.specs.Prelude.{◌≡◌, ◌↔◌, ℕ, ◌<◌, List, length, Some, None, codes, true, false};
ghost use Rattle.sd_model_settings.specs.Entries.{Node};
ghost use Rattle.sd_model_ring.specs.Ring.{is_up, owner};
ghost use Rattle.md5.specs.Md5.{md5, word_at};

/// The owner is one of the nodes, and it is up. There is none exactly where no node is up.
pub fn owners_are_up()
    ensures node { (key : List ℕ) (nodes : List Node) (up node : ℕ) → owner key nodes up ≡ Some node → node < length nodes }
    ensures up { (key : List ℕ) (nodes : List Node) (up node : ℕ) → owner key nodes up ≡ Some node → is_up up node ≡ true }
    ensures none { (key : List ℕ) (nodes : List Node) (up : ℕ) → (owner key nodes up ≡ None) ↔ ((node : ℕ) → node < length nodes → is_up up node ≡ false) }
{}

/// The bits of the nodes decide, and no others.
pub fn other_bits_are_free()
    ensures { (key : List ℕ) (nodes : List Node) (up also : ℕ) → ((node : ℕ) → node < length nodes → is_up up node ≡ is_up also node)
        → owner key nodes up ≡ owner key nodes also }
{}

/// A node keeps its keys while it is up, when others go down.
pub fn keys_stay()
    ensures { (key : List ℕ) (nodes : List Node) (up fewer node : ℕ) → ((other : ℕ) → is_up fewer other ≡ true → is_up up other ≡ true)
        → owner key nodes up ≡ Some node → is_up fewer node ≡ true → owner key nodes fewer ≡ Some node }
{}

/// The numbers of two keys, which are the first words of their digests in RFC 1321.
pub fn key_vectors()
    ensures one { word_at (md5 (codes "a")) 0 ≡ 3111502092 }
    ensures three { word_at (md5 (codes "abc")) 0 ≡ 2555380112 }
{}
