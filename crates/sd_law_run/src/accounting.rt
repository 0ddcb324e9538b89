ghost use Rattle.std.specs.Prelude.{◌≡◌, ◌<◌, ◌≤◌, ℕ, List, map, length, get_or, flat_map};
ghost use Rattle.std.specs.List.{AllByRecursion, range_with_len};
ghost use Rattle.sd_model_shard.specs.History.{part_of, state_after, arrivals};
ghost use Rattle.sd_model_record.specs.Record.{record_rows, documented_rows};
ghost use Rattle.sd_model_serve.specs.Receiving.{flusher};
ghost use Rattle.sd_model_serve.specs.Rounds.{AreAccounted, Ran, Round, flushed_at, round_record};
ghost use Rattle.sd_model_replay.specs.Replay.{Bounds, bounds_of, limits_of, policy_of, Played, first_run, form_of, history_at, home_of, rounds, run_of, samples_of_record};
ghost use Rattle.sd_model_replay.specs.Script.{IsLegal};
ghost use Rattle.sd_law_run.specs.Asked.{asked_in, brought_in};
ghost use Rattle.sd_law_shards.specs.Records.{records};
ghost use Rattle.sd_model_settings.specs.Settings.{Settings, plan_of};

/// The histories that records make account for each good sample: it is submitted to the shard of its key and to no other, and
/// stands there in one place: the journal of one flush, what one deletion took out, the entries held, or a drop. The state of a
/// shard is the one after its history.
pub fn samples_are_accounted()
    ensures accounted { (settings : Settings) (played : List Played)
        → AreAccounted (limits_of settings) (policy_of settings) (form_of settings) (λ i. history_at (bounds_of settings) i played) (rounds (bounds_of settings) played) }
    ensures submitted { (bounds : Bounds) (played : List Played) (i : ℕ)
        → arrivals (history_at bounds i played) ≡ part_of (λ a. home_of bounds.shards a.sample) i (flat_map (λ p. samples_of_record p.command) played) }
    ensures homes { (shards : ℕ) (played : List Played) → 0 < shards → AllByRecursion (λ a. home_of shards a.sample < shards) (flat_map (λ p. samples_of_record p.command) played) }
    ensures state { (bounds : Bounds) (played : List Played) (i : ℕ)
        → (run_of bounds (first_run played) played).shards i ≡ state_after bounds.limits bounds.policy (history_at bounds i played) }
{}

/// The history of a shard is one that the callers of a run leave: each receiver submitted the samples that it brought, those with
/// keys of that shard, the flusher swapped once for each round, the administrator asked for what the admin lines ask, each in
/// its order, and nobody else asked for anything.
pub fn replays_are_runs()
    ensures { (bounds : Bounds) (receivers : ℕ) (played : List Played) (i : ℕ)
        → receivers ≤ flusher → AllByRecursion (λ p. IsLegal receivers p.command) played
        → Ran bounds.limits bounds.policy bounds.shards (brought_in receivers played) (rounds bounds played) (asked_in bounds played) i (history_at bounds i played) }
{}

/// Each flush's record has the documented statistics of the journals that its own swaps took, is made of the rows of its own
/// tables, and is at the flush's second.
pub fn records_are_documented()
    ensures statistics { (settings : Settings) (played : List Played) (k : ℕ) (other : Round) → k < length (rounds (bounds_of settings) played)
        → (get_or (records settings played) k (round_record (form_of settings) other)).rows
        ≡ documented_rows (plan_of settings) (flushed_at settings.sizes.shards (λ i. history_at (bounds_of settings) i played) k) }
    ensures rows { (settings : Settings) (played : List Played)
        → map (λ r. r.rows) (records settings played) ≡ map (λ r. record_rows (plan_of settings) (map r.tables (range_with_len 0 settings.sizes.shards))) (rounds (bounds_of settings) played) }
    ensures times { (settings : Settings) (played : List Played) → map (λ r. r.ts) (records settings played) ≡ map (λ r. r.ts) (rounds (bounds_of settings) played) }
{}
