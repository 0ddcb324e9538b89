//! Shards that one caller has in hand.
use sd_batch::{Batch, Counts, Submit, take_run};
use sd_epoch::Who;
use sd_shard::Shard;

/// A caller who has shards in hand.
#[derive(Clone, Copy, Debug)]
pub(crate) struct InHand {
    pub who: Who,
}

impl Submit<Vec<Shard>> for InHand {
    ghost use Rattle.std.specs.Prelude.{length};
    ghost use Rattle.sd_shards.specs.Played.{AreReady, HavePlayed, none_played, played_next};

    ghost shards = { λ caller shards. length shards.items };

    ghost caller = { λ caller shards. caller.who.0 };

    ghost is_ready = { λ caller shards. AreReady shards.items };

    ghost adds = { λ caller old new acts. HavePlayed old.items new.items acts };

    fn submit_run(&self, seat: &mut Vec<Shard>, batch: &Batch, home: u16) -> Counts {
        take_run(&mut seat[usize::from(home)], batch.run(home))
    }

    ghost some_shards = { λ caller shards ready. ready.some };

    ghost adds_none = { λ caller shards ready. none_played shards.items ready };

    ghost adds_next = { λ caller one two three xs ys first second. played_next one.items two.items three.items xs ys first second };
}
