ghost use Rattle.std.specs.Prelude.{◌≡◌, ◌<◌, ◌≤◌, ℕ, List, [], ◌∷◌, codes, decimal, Some};
ghost use Rattle.sd_model_call.specs.Call.{Drill, form};

/// A drill is asked for by just these words: `drill`, and the decimal text of a number from 1 to 100,000.
pub fn drill_words_are_decimal()
    ensures written { (n : ℕ) → 0 < n → n ≤ 100000 → form (codes "drill" ∷ decimal n ∷ []) ≡ Some (Drill n) }
    ensures read { (words : List (List ℕ)) (n : ℕ) → form words ≡ Some (Drill n)
        → (words ≡ codes "drill" ∷ decimal n ∷ []) × (0 < n) × (n ≤ 100000) }
{}
