use crate::telling::tell_dropped;
use log::Log;
use sd_batch::{Batch, Counts, Submit};
use sd_outside::Gate;
use sd_pool::{Pool, Seat};
use std::sync::Wait;

/// A pool that a receiver submits to. Behind the answers of a shard's run, it passes place 1 of the gate once for each sample.
#[derive(Drop)]
pub(crate) struct Submitting<'a, G, R> {
    pub rt: &'a R,
    pub pool: &'a Pool,
    pub gate: &'a G,
}

impl<'a, G: Gate, R: Wait + Log> Submit<Seat> for Submitting<'a, G, R> {
    ghost use Rattle.sd_pool.specs.Adding.{Adds};
    ghost use Rattle.sd_pool.proofs.ActsLemmas.{Adds-none, Adds-next};
    ghost use Rattle.sd_pool.specs.Pool.{IsSeatOf, own_at, shards_of, who_is};

    ghost shards = { λ group seat. shards_of group.pool.now };

    ghost caller = { λ group seat. who_is seat };

    ghost is_ready = { λ group seat. IsSeatOf group.pool.now seat };

    ghost adds = { λ group old new acts. Adds (shards_of group.pool.now) acts (own_at old) (own_at new) };

    fn submit_run(&self, seat: &mut Seat, batch: &Batch, home: u16) -> Counts {
        let counts = self.pool.submit_run(self.rt, home, seat, batch);
        tell_dropped(self.rt, batch, home, counts);
        for _sample in 0..counts.taken + counts.dropped {
            self.gate.pass(1);
        }
        counts
    }

    ghost some_shards = { λ group seat ready. ready.sits.pool_is.some };

    ghost adds_none = { λ group seat ready. Adds-none (shards_of group.pool.now) (own_at seat) };

    ghost adds_next = { λ group one two three xs ys first second. Adds-next (shards_of group.pool.now) xs ys (own_at one) (own_at two) (own_at three) first second };
}
