ghost use Rattle.std.specs.Prelude.{◌≡◌, Bool, IfSome};
ghost use Rattle.sd_model_serve.specs.Rounds.{OutletRoom};
ghost use Rattle.sd_pool.specs.Pool.{own_at};
ghost use Rattle.sd_shared_desk.specs.Shared.{part_of};
ghost use Rattle.sd_delivery.specs.Delivery.{GivesBackends};
ghost use Rattle.sd_outside.specs.Backends.{back_of, uses};
ghost use Rattle.sd_flush.specs.Flushing.{Flushes, form_of};
ghost use Rattle.sd_serve.specs.OutRoom.{AreOutRooms, HasOutRooms};
ghost use Rattle.sd_serve.specs.Through.{FlushesThrough};
ghost use Rattle.sd_serve.specs.Workers.{AreReady, HaveRun, held, sights};

use crate::objects::ObjectsOf;
use crate::out_room::OutRooms;
use crate::outlets::{OutCounts, run_through_outlets};
use crate::run_settings::RunSettings;
use crate::services::ServicePosts;
use crate::work::{AdminWork, Flushing, LineWork};
use log::Log;
use sd_flush::Flushed;
use sd_outside::{DoorEnd, Ended};
use sd_receive::Post;
use sd_run::ObjectTypes;
use sd_shared::Shared;
use sd_workers::run_workers;
use std::sync::Wait;
use std::thread::Threads;

/// How the flusher and the keeper of the admin door ended, and the reader of lines, if there was one.
#[derive(Clone, Copy, Debug, PartialEq, Eq)]
pub struct Ends {
    pub flusher: Flushed,
    pub keeper: DoorEnd,
    pub line_reader: Option<DoorEnd>,
}

/// No round was made yet.
pub(crate) const NOT_FLUSHED: Flushed = Flushed {
    ended: Ended::End,
    rounds: 0,
    last: None,
};

// Runs the flusher, the keeper of the admin door, the reader of lines, if there is one, and the receivers side by side, each in a
// thread of its own where the machine gives one, until all have ended. The flusher writes to the backends itself.
fn run_server<K: ObjectTypes, R: Threads + Wait + Log + Sync>(
    rt: &R,
    shared: &Shared<'_, K::G, K::T>,
    run_settings: &RunSettings<'_, K::G, K::T>,
    services: &mut ServicePosts,
    posts: &mut [Post<K::D, K::L>],
    objects: &mut ObjectsOf<'_, '_, '_, '_, K>,
) -> Ends
    requires ready { AreReady (sights K.D.seen K.L.seen K.P.seen K.B.seen K.E.seen K.S.seen) shared.now (held services.old posts.old objects.old) }
    ensures ran { HaveRun (sights K.D.seen K.L.seen K.P.seen K.B.seen K.E.seen K.S.seen) shared.now (K.T.may_say shared.now.clock.now) run_settings.now.settings.now (held services.old posts.old objects.old) (held services.new posts.new objects.new) result }
    ensures flushes { Flushes (form_of shared.now.pool.now run_settings.now.form.plan.now run_settings.now.form.names.now) (GivesBackends K.B.seen) (λ old new. new ≡ old) shared.now.run_flushes (own_at services.old.flusher.seat) (own_at services.new.flusher.seat)
        (part_of services.old.flusher.own) (part_of services.new.flusher.own) objects.old.backs.now objects.new.backs.now (K.P.seen objects.old.beat.now) (K.P.seen objects.new.beat.now) result.flusher }
{
    let mut flushing = Flushing {
        post: &mut services.flusher,
        form: &run_settings.form,
        backs: &mut *objects.backs,
        beat: &mut *objects.beat,
        flushed: NOT_FLUSHED,
    };
    let mut admin_work = AdminWork {
        post: &mut services.admin,
        settings: run_settings.settings,
        door: &mut *objects.door,
        ended: DoorEnd::End,
    };
    let mut line_work = LineWork {
        post: &mut services.lines,
        door: &mut *objects.streams,
        ended: None,
    };
    run_workers(
        rt,
        shared,
        &mut flushing,
        &mut admin_work,
        &mut line_work,
        posts,
    );
    Ends {
        flusher: flushing.flushed,
        keeper: admin_work.ended,
        line_reader: line_work.ended,
    }
}

/// Runs the workers of a server until all have ended, with outlets between the flusher and the backends, where there are any. What
/// they hold and what is lent to them is left as each says of its own work.
pub(crate) fn run_all<K: ObjectTypes, R: Threads + Wait + Log + Sync>(
    rt: &R,
    shared: &Shared<'_, K::G, K::T>,
    run_settings: &RunSettings<'_, K::G, K::T>,
    services: &mut ServicePosts,
    posts: &mut [Post<K::D, K::L>],
    outs: Option<OutRooms>,
    objects: &mut ObjectsOf<'_, '_, '_, '_, K>,
) -> (Ends, Option<OutCounts>)
    requires ready { AreReady (sights K.D.seen K.L.seen K.P.seen K.B.seen K.E.seen K.S.seen) shared.now (held services.old posts.old objects.old) }
    requires outs { IfSome outs AreOutRooms }
    ensures ran { HaveRun (sights K.D.seen K.L.seen K.P.seen K.B.seen K.E.seen K.S.seen) shared.now (K.T.may_say shared.now.clock.now) run_settings.now.settings.now (held services.old posts.old objects.old) (held services.new posts.new objects.new) result.0 }
    ensures flushes { (outlets : Bool) (room : OutletRoom) → HasOutRooms outlets room.buffers room.bytes outs → FlushesThrough (form_of shared.now.pool.now run_settings.now.form.plan.now run_settings.now.form.names.now) (uses objects.old.backs.now) outlets room shared.now.run_flushes (own_at services.old.flusher.seat) (own_at services.new.flusher.seat)
        (part_of services.old.flusher.own) (part_of services.new.flusher.own) (back_of K.B.seen objects.old.backs.now) (back_of K.B.seen objects.new.backs.now) (K.P.seen objects.old.beat.now) (K.P.seen objects.new.beat.now) result.0.flusher result.1 }
{
    let Some(outs) = outs else {
        let ends = run_server::<K, R>(rt, shared, run_settings, services, posts, objects);
        return (ends, None);
    };
    let (ends, counts) = run_through_outlets::<K, R>(
        rt,
        shared,
        run_settings,
        services,
        posts,
        outs,
        objects,
    );
    (ends, Some(counts))
}
