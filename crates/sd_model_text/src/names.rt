ghost use Rattle.std.specs.Prelude.{◌≡◌, ◌≢◌, ◌↔◌, ℕ, ◌<◌, ◌≤◌, List, [], ◌∷◌, ◌++◌, length, Ok, IsTrue, codes};
ghost use Rattle.std.specs.List.{AllPass};
ghost use Rattle.sd_model_text.specs.Names.{clean, fnv1a, is_name_byte, matches};

/// A name that was cleaned is its own clean form.
pub fn clean_twice()
    ensures { (name key : List ℕ) → clean name ≡ Ok key → clean key ≡ Ok key }
{}

/// A key has 1 to 255 bytes, and each is a byte of names.
pub fn clean_keys()
    ensures bytes { (name key : List ℕ) → clean name ≡ Ok key → AllPass is_name_byte key }
    ensures some { (name key : List ℕ) → clean name ≡ Ok key → 0 < length key }
    ensures short { (name key : List ℕ) → clean name ≡ Ok key → length key ≤ 255 }
{}

/// A name of 1 to 255 bytes of names is its own key.
pub fn clean_names()
    ensures { (name : List ℕ) → AllPass is_name_byte name → 0 < length name → length name ≤ 255 → clean name ≡ Ok name }
{}

/// A pattern `prefix.*` matches the keys that begin with `prefix.`, and any other pattern the equal key alone.
pub fn matches_families()
    ensures family { (prefix key : List ℕ) → IsTrue (matches (prefix ++ 46 ∷ 42 ∷ []) key) ↔ ((rest : List ℕ) × (key ≡ prefix ++ 46 ∷ rest)) }
    ensures alone { (pattern key : List ℕ) → ((prefix : List ℕ) → pattern ≢ prefix ++ 46 ∷ 42 ∷ []) → IsTrue (matches pattern key) ↔ (key ≡ pattern) }
{}

/// The hashes of three texts are the published ones.
pub fn hash_vectors()
    ensures empty { fnv1a [] ≡ 0xcbf29ce484222325 }
    ensures one { fnv1a (codes "a") ≡ 0xaf63dc4c8601ec8c }
    ensures six { fnv1a (codes "foobar") ≡ 0x85944171f73967e8 }
{}
