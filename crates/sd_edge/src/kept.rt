ghost use Rattle.std.specs.Prelude.{◌≡◌, ◌++◌, [], false, ℕ, List};
ghost use Rattle.sd_edge.specs.Lines.{Held, after_piece};

/// Where long lines are split, a piece that is taken in loses no byte and gives none twice: what a session has and what is held
/// behind that are what was held and the piece.
pub fn split_lines_keep_all_bytes()
    ensures { (h : Held) (piece : List ℕ) → h.ready ≡ [] → h.is_cut ≡ false
        → (after_piece h piece).ready ++ (after_piece h piece).rest ≡ h.rest ++ piece }
{}
