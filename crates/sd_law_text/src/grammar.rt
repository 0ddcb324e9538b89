ghost use Rattle.std.specs.Prelude.{◌≡◌, ◌↔◌, ℕ, List, [], ◌∷◌, Ok, Err, All};
ghost use Rattle.sd_law_text.specs.Bytes.{HasNoMark};
ghost use Rattle.sd_model_text.specs.Lines.{Sample, Flaw, field, pieces, pieces_in, reading};
ghost use Rattle.sd_law_text.specs.Grammar.{Good, IsBad, IsPiece, fields_of};
ghost use Rattle.sd_law_text.specs.Before.{reading_before};

/// A piece is read as a sample just where it is good with that sample, and as a flaw just where it is bad for that
/// cause. So each piece is good or bad, not both, with one sample or one cause.
pub fn pieces_are_good_or_bad()
    ensures good { (piece : List ℕ) (s : Sample) → IsPiece piece → (reading piece ≡ Ok s) ↔ Good piece s }
    ensures bad { (piece : List ℕ) (flaw : Flaw) → (reading piece ≡ Err flaw) ↔ IsBad piece flaw }
{}

/// Each piece of a datagram has at most one colon.
pub fn pieces_have_one_colon()
    ensures { (datagram : List ℕ) → All IsPiece (pieces datagram) }
{}

/// A line with at most one colon is one piece. Where it has no `e` and no `E` in its value and its rate, it is read as before
/// numbers had exponents: as the same sample, or as bad for the same cause.
pub fn plain_lines_stay()
    ensures piece { (line : List ℕ) → IsPiece line → pieces_in line ≡ line ∷ [] }
    ensures reading { (line : List ℕ) → IsPiece line → HasNoMark (field 0 (fields_of line)) → HasNoMark (field 2 (fields_of line)) → reading line ≡ reading_before line }
{}
