//! What a value behind a turn with a history says of itself.
ghost use Rattle.std.specs.Prelude.{ℕ, List};

/// A value that is what the entries of a history leave.
pub trait Stepped: Drop {
    /// An entry of the history. No value of it is made.
    type Noted;

    /// Plain data that no change touches. No value of it is made.
    type Fixed;

    ghost fixed: { Self → Self.Fixed };

    // How many seats a fixed part gives.
    ghost seats: { Self.Fixed → ℕ };

    // Which lists of entries are legal for a fixed part.
    ghost legal: { Self.Fixed → List Self.Noted → Type 0 };

    // The value is what these entries, in order, leave.
    ghost stands: { Self → List Self.Noted → Type 0 };

    // The number of the seat that made the entry.
    ghost who: { Self.Noted → ℕ };

    ghost stands_legal: { (v : Self) (log : List Self.Noted) → stands v log → legal (fixed v) log };
}
