ghost use Rattle.std.specs.Prelude.{◌≡◌, ℕ, ◌≤◌, List, codes, true};
ghost use Rattle.std.specs.FinMap.{contains_key};
ghost use Rattle.std.specs.List.{AllByRecursion, IsDistinct};
ghost use Rattle.sd_model_text.specs.Names.{shard};
ghost use Rattle.sd_model_shard.specs.Rows.{RowId, is_same_row};
ghost use Rattle.sd_model_replay.specs.Replay.{Bounds, bounds_of, Played, first_run, rounds, run_of};
ghost use Rattle.sd_model_record.specs.Totals.{number_in};
ghost use Rattle.sd_model_replay.specs.AccountingTheorem.{totals_after};
ghost use Rattle.sd_law_shards.specs.Shards.{NoneDropped, ShowTheSame, rows_taken, with_shards};
ghost use Rattle.sd_model_settings.specs.Settings.{Settings};

/// Where settings that differ in the number of shards alone drop no sample, a script shows the same by both: the texts that backends
/// are given, the records, the totals, and the output but for what `config` and `totals` tell.
pub fn shards_are_not_shown()
    ensures { (settings : Settings) (n m : ℕ) (played : List Played) → 1 ≤ n → 1 ≤ m
        → NoneDropped (bounds_of (with_shards n settings)) played → NoneDropped (bounds_of (with_shards m settings)) played
        → ShowTheSame (with_shards n settings) (with_shards m settings) played }
{}

/// Totals that tell no drop say that no shard drops a sample.
pub fn no_drop_is_reported()
    ensures { (settings : Settings) (played : List Played) → number_in (totals_after settings played) (codes "dropped") ≡ 0 → NoneDropped (bounds_of settings) played }
{}

/// Each shard has rows of its own keys alone, whether or not samples are dropped. So no row stands in two of the tables
/// that a flush takes.
pub fn rows_are_at_home()
    ensures keys { (bounds : Bounds) (played : List Played) (i : ℕ) (id : RowId)
        → contains_key ((run_of bounds (first_run played) played).shards i).live id ≡ true → shard id.key bounds.shards ≡ i }
    ensures tables { (bounds : Bounds) (played : List Played)
        → AllByRecursion (λ r. IsDistinct is_same_row (rows_taken bounds.shards r)) (rounds bounds played) }
{}
