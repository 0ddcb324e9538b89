ghost use Rattle.std.specs.Prelude.{◌≡◌, ℕ, ◌*◌, ◌<◌, ◌≤◌, ℤ, pos, ◌*ℤ◌, ◌-ℤ◌, ◌≤ℤ◌, neg_ℤ, unsigned_abs};
ghost use Rattle.sd_model_text.specs.Numbers.{round};

/// Rounding is symmetric under the sign.
pub fn rounding_is_symmetric()
    ensures { (a : ℤ) (b : ℕ) → 0 < b → round (neg_ℤ a) b ≡ neg_ℤ (round a b) }
{}

/// A whole result is exact.
pub fn rounding_is_exact()
    ensures { (q : ℤ) (b : ℕ) → 0 < b → round (q *ℤ pos b) b ≡ q }
{}

/// Rounding is off by at most one half.
pub fn rounding_is_near()
    ensures { (a : ℤ) (b : ℕ) → 0 < b → 2 * unsigned_abs (round a b *ℤ pos b -ℤ a) ≤ b }
{}

/// Rounding is monotone.
pub fn rounding_is_monotone()
    ensures { (a c : ℤ) (b : ℕ) → 0 < b → a ≤ℤ c → round a b ≤ℤ round c b }
{}
