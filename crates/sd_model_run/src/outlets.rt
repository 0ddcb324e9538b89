ghost use Rattle.std.specs.Prelude.{◌≡◌, ℕ, ◌+◌, ◌<◌, ◌≤◌, List, ◌∷◌, length, map};
ghost use Rattle.sd_model_outside.specs.Backend.{Backend};
ghost use Rattle.sd_model_serve.specs.Rounds.{RecordForm, round_text, OutletRoom, OutletTrace, WentThrough};
ghost use Rattle.sd_model_run.specs.Run.{ServerTrace, rounds_in};

/// Where the texts of a run's ticks went through a backend's outlet, its rounds are one more than the texts that were queued and
/// skipped there: the last round writes to the backend itself. And the first text is queued, where it fits a buffer.
pub fn texts_are_queued_or_skipped()
    ensures all { (room : OutletRoom) (form : RecordForm) (back : Backend) (c : ServerTrace) → WentThrough room (map (round_text form back) c.ticked) (c.outlet_traces back)
        → length (rounds_in c) ≡ length (c.outlet_traces back).queued + (c.outlet_traces back).skipped + 1 }
    ensures first { (room : OutletRoom) (text : List ℕ) (texts : List (List ℕ)) (o : OutletTrace) → 0 < room.buffers → length text ≤ room.bytes
        → WentThrough room (text ∷ texts) o → (rest : List (List ℕ)) × (map (λ d. d.text) o.queued ≡ text ∷ rest) }
{}
