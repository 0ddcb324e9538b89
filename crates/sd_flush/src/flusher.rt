ghost use Rattle.std.specs.Prelude.{◌≡◌, ◌<◌, ◌^◌};
ghost use Rattle.sd_pool.specs.Pool.{own_at};
ghost use Rattle.sd_shared_desk.specs.Shared.{number_of_seat, part_of};
ghost use Rattle.sd_flush.specs.Tables.{IsFlusherPost};
ghost use Rattle.sd_flush.specs.Flushing.{Flushes, FlushesAtTicks, form_of};

use crate::flushed::Flushed;
use crate::post::FlusherPost;
use crate::record_form::RecordForm;
use crate::rounds::round;
use log::Log;
use sd_delivery::Delivery;
use sd_outside::{Beat, Ended, Gate, Tick};
use sd_shared::Shared;
use std::sync::Wait;

/// How many rounds a flusher makes at most.
const MOST_TURNS: u64 = 1 << 62;

// Makes a round at each tick of a beat, until it has none left or fails, or as many rounds were made as are asked for; 0 asks for
// none.
fn flush_at_ticks<E: Beat, D: Delivery, G: Gate, C, R: Wait + Log>(
    rt: &R,
    shared: &Shared<'_, G, C>,
    post: &mut FlusherPost,
    form: &RecordForm<'_>,
    beat: &mut E,
    delivery: &mut D,
) -> Flushed
    requires post { IsFlusherPost shared.now.pool.now shared.now.desk.now post.old }
    requires ready { D.is_ready delivery.old }
    requires turns { (E.seen beat.old).turns < 2 ^ 62 }
    ensures post { IsFlusherPost shared.now.pool.now shared.now.desk.now post.new }
    ensures number { number_of_seat post.new.own ≡ number_of_seat post.old.own }
    ensures ready { D.is_ready delivery.new }
    ensures flushes { FlushesAtTicks (form_of shared.now.pool.now form.now.plan.now form.now.names.now) D.gives shared.now.run_flushes
        (own_at post.old.seat) (own_at post.new.seat) (part_of post.old.own) (part_of post.new.own)
        delivery.old delivery.new (E.seen beat.old) (E.seen beat.new) result }
{
    let run_flushes = shared.run_flushes;
    let mut last = None;
    for rounds in 0..MOST_TURNS {
        if run_flushes > 0 && rounds == run_flushes {
            let ended = Ended::Stopped { rounds };
            return Flushed {
                ended,
                rounds,
                last,
            };
        }
        match beat.next() {
            Tick::At(ts) => {
                round(rt, shared, post, form, ts, delivery);
                last = Some(ts);
            }
            Tick::End => {
                let ended = Ended::End;
                return Flushed {
                    ended,
                    rounds,
                    last,
                };
            }
            Tick::Failed => {
                let ended = Ended::Failed;
                return Flushed {
                    ended,
                    rounds,
                    last,
                };
            }
        }
    }
    let ended = Ended::Worn { turns: MOST_TURNS };
    Flushed {
        ended,
        rounds: MOST_TURNS,
        last,
    }
}

/// Makes a round at each tick of a beat, until it has none left or fails, or as many rounds were made as are asked for; 0 asks for
/// none. Then it ends the delivery. It waits for the beat, and for the turns of the shards and of the desk, and takes no memory.
pub fn flush_all<E: Beat, D: Delivery, G: Gate, C, R: Wait + Log>(
    rt: &R,
    shared: &Shared<'_, G, C>,
    post: &mut FlusherPost,
    form: &RecordForm<'_>,
    beat: &mut E,
    delivery: &mut D,
) -> Flushed
    requires post { IsFlusherPost shared.now.pool.now shared.now.desk.now post.old }
    requires ready { D.is_ready delivery.old }
    requires turns { (E.seen beat.old).turns < 2 ^ 62 }
    ensures post { IsFlusherPost shared.now.pool.now shared.now.desk.now post.new }
    ensures number { number_of_seat post.new.own ≡ number_of_seat post.old.own }
    ensures ready { D.is_ready delivery.new }
    ensures flushes { Flushes (form_of shared.now.pool.now form.now.plan.now form.now.names.now) D.gives D.ends shared.now.run_flushes
        (own_at post.old.seat) (own_at post.new.seat) (part_of post.old.own) (part_of post.new.own)
        delivery.old delivery.new (E.seen beat.old) (E.seen beat.new) result }
{
    let flushed = flush_at_ticks(rt, shared, post, form, beat, delivery);
    delivery.end();
    flushed
}
