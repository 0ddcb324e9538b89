ghost use Rattle.std.specs.Prelude.{◌≡◌, ℕ, ◌<◌, List, [], ◌++◌};
ghost use Rattle.sd_model_shard.specs.History.{History};
ghost use Rattle.sd_batch.specs.Filing.{SubmitsRun, waiting_at};

use crate::{Batch, Counts};

/// Shards that a caller submits samples to. `S` is what the caller holds of them.
pub trait Submit<S> {
    ghost shards: { Self → S → ℕ };

    // The caller's number.
    ghost caller: { Self → S → ℕ };

    ghost is_ready: { Self → S → Type 0 };

    // At each shard, by its number, the caller made these acts more.
    ghost adds: { Self → S → S → (ℕ → History) → Type 0 };

    /// Submits the samples of a batch that go to one shard, in order.
    fn submit_run(&self, seat: &mut S, batch: &Batch, home: u16) -> Counts
        requires ready { is_ready self.now seat.old }
        requires batch { batch.now.shards ≡ shards self.now seat.old }
        requires home { home < shards self.now seat.old }
        ensures ready { is_ready self.now seat.new }
        ensures shards { shards self.now seat.new ≡ shards self.now seat.old }
        ensures caller { caller self.now seat.new ≡ caller self.now seat.old }
        ensures submits { SubmitsRun (adds self.now seat.old seat.new) (caller self.now seat.old) home (waiting_at (shards self.now seat.old) home batch.now.items) result };

    ghost some_shards: { (g : Self) (s : S) → is_ready g s → 0 < shards g s };

    ghost adds_none: { (g : Self) (s : S) → is_ready g s → adds g s s (λ i. []) };

    ghost adds_next: { (g : Self) (one two three : S) (xs ys : ℕ → History) → adds g one two xs → adds g two three ys
        → adds g one three (λ i. xs i ++ ys i) };
}
