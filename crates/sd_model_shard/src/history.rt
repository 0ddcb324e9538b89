ghost use Rattle.std.specs.Prelude.{◌≡◌, ℕ, List, [], option_and_then, not, ◌||◌, if◌then◌else◌, None, fold};
ghost use Rattle.std.specs.FinMap.{contains_key, get};
ghost use Rattle.std.specs.List.{list_any};
ghost use Rattle.sd_model_shard.specs.Rows.{RowId, Rows, Entry, row_of, is_same_row, Tell, is_hit, rows_left, touched};
ghost use Rattle.sd_model_text.specs.Names.{Kind};
ghost use Rattle.sd_model_shard.specs.Shard.{Policy, kept_rows, left_of};

/// The rows after samples are those that were there and those of the samples, and tell what the samples come to where they
/// had none; and what a swap and a deletion leave of a row.
pub fn rows_are_reported()
    ensures rows { (live : Rows) (journal : List Entry) (id : RowId) → contains_key (fold (λ rows e. touched rows e.sample) live journal) id
        ≡ (contains_key live id || list_any (λ e. is_same_row id (row_of e.sample)) journal) }
    ensures reported { (live : Rows) (journal : List Entry) → Tell live [] → Tell (fold (λ rows e. touched rows e.sample) live journal) journal }
    ensures kept_rows { (policy : Policy) (live : Rows) (id : RowId) → get (kept_rows policy live) id
        ≡ option_and_then (left_of policy id) (get live id) }
    ensures left { (kind : Kind) (pattern : List ℕ) (live : Rows) (id : RowId) → get (rows_left kind pattern live) id
        ≡ (if not (is_hit kind pattern id) then get live id else None) }
{}
