//! The server's workers with outlets between the flusher and the backends.
ghost use Rattle.std.specs.Prelude.{◌≡◌, ℕ, ◌+◌, ◌<◌, ◌≤◌, All, Bool, Some, length, slice_index_or};
ghost use Rattle.sd_model_outside.specs.Outside.{Object};
ghost use Rattle.sd_model_outside.specs.Backend.{Backend};
ghost use Rattle.sd_model_serve.specs.Rounds.{OutletRoom};
ghost use Rattle.sd_pool.specs.Pool.{own_at};
ghost use Rattle.sd_shared_desk.specs.Shared.{part_of};
ghost use Rattle.sd_outlet.specs.Drain.{IsDrainOf, got};
ghost use Rattle.sd_outlet.specs.Feed.{IsFeedOf, IsNew, sends_of, sent};
ghost use Rattle.sd_outlet.specs.Worked.{HasWorked};
ghost use Rattle.sd_outside.specs.Backends.{back_of, uses};
ghost use Rattle.sd_flush.specs.Flushing.{Flushes, form_of};
ghost use Rattle.sd_delivery.specs.Leads.{AreReadyLeads, GivesOutlets, StopsLeads};
ghost use Rattle.sd_outside.specs.Backends.{at};
ghost use Rattle.sd_receive.specs.Posts.{HasRun, IsReady};
ghost use Rattle.sd_serve.specs.OutRoom.{AreOutRooms, HasOutRooms};
ghost use Rattle.sd_serve.specs.Outlets.{AreLeadsOf, IsNewDrain, WasDrained, offered_of};
ghost use Rattle.sd_serve.specs.Through.{FlushesThrough};
ghost use Rattle.sd_serve.specs.Work.{CanFeed, CanKeep, CanLine, HasFed, HasKept, HasReadLines};
ghost use Rattle.sd_serve.specs.Workers.{AreReady, HaveRun, held, sights};

use crate::beside::run_with_pair;
use crate::objects::ObjectsOf;
use crate::out_room::OutRooms;
use crate::run_settings::RunSettings;
use crate::services::ServicePosts;
use crate::work::{AdminWork, Draining, Feeding, LineWork};
use crate::workers::{Ends, NOT_FLUSHED};
use log::Log;
use sd_delivery::{Lead, Leads};
use sd_outlet::{Drain, Feed, Outlet, Worked};
use sd_outside::{Backend, Backs, DoorEnd, PerBackend};
use sd_receive::Post;
use sd_run::ObjectTypes;
use sd_shared::Shared;
use std::sync::Wait;
use std::thread::Threads;

/// How many texts an outlet skipped, and how many of the others were written whole and missed.
#[derive(Clone, Copy, Debug, PartialEq, Eq)]
pub struct OutCount {
    pub skipped: u64,
    pub worked: Worked,
}

/// The count of each outlet.
pub type OutCounts = PerBackend<OutCount>;

/// The outlets, and the drains by which their workers get the texts.
#[derive(Drop)]
struct Drains<'o> {
    outlets: &'o PerBackend<Outlet>,
    drains: PerBackend<Drain>,
}

// Nothing was written yet.
const NOTHING: Worked = Worked {
    written: 0,
    faults: 0,
};

// The leads of new feeds.
fn leads_of<'o, B>(
    backs: &Backs<B>,
    outlets: &'o PerBackend<Outlet>,
    feeds: PerBackend<Feed>,
) -> Leads<'o>
    requires { (b : Backend) → IsFeedOf (at outlets.now b) (at feeds b) × IsNew (at feeds b) }
    ensures { AreLeadsOf (uses backs.now) outlets.entry.now result }
{
    Leads {
        graphite: Lead::new(backs.graphite.is_used, &outlets.graphite, feeds.graphite),
        console: Lead::new(backs.console.is_used, &outlets.console, feeds.console),
    }
}

// How many texts of so many rounds were offered at an outlet.
fn offered(used: bool, rounds: u64) -> u64
    ensures { result ≡ offered_of used rounds }
{
    if used { rounds } else { 0 }
}

// Closes an outlet whose worker has ended, at which so many texts were offered, and counts what was left with what the worker wrote.
fn close_outlet<B: Backend, R: Wait>(
    rt: &R,
    outlet: Outlet,
    feed: Feed,
    drain: Drain,
    offered: u64,
    worked: Worked,
    back: &mut B,
) -> OutCount
    requires feed { IsFeedOf outlet feed }
    requires drain { IsDrainOf outlet drain }
    requires few { sends_of feed ≤ offered }
    ensures skipped { result.skipped + length (sent feed) ≡ offered }
    ensures worked { (first : Object) → HasWorked (got drain) worked first (B.seen back.old) → HasWorked (sent feed) result.worked first (B.seen back.new) }
{
    let skipped = offered - feed.sends();
    let left = outlet.close(rt, feed, drain, back);
    OutCount {
        skipped,
        worked: worked.and(left),
    }
}

// Runs three workers, the outlets' workers and the receivers side by side, until all have ended.
fn run_drained<K: ObjectTypes, R: Threads + Wait + Log + Sync>(
    rt: &R,
    shared: &Shared<'_, K::G, K::T>,
    feeding: &mut Feeding<'_, '_, '_, '_, '_, '_, K::P>,
    admin_work: &mut AdminWork<'_, '_, '_, K::E>,
    line_work: &mut LineWork<'_, '_, K::S>,
    drains: &mut Drains<'_>,
    backs: &mut Backs<K::B>,
    posts: &mut [Post<K::D, K::L>],
) -> PerBackend<Worked>
    requires feeding { CanFeed K.P.seen shared.now.pool.now shared.now.desk.now feeding.old }
    requires admin_work { CanKeep K.E.seen shared.now.pool.now shared.now.desk.now admin_work.old }
    requires line_work { CanLine K.S.seen shared.now.pool.now shared.now.desk.now line_work.old }
    requires drains { (b : Backend) → IsNewDrain (at drains.old.outlets.now b) (at drains.old.drains b) }
    requires posts { All (IsReady shared.now.pool.now shared.now.desk.now) posts.old }
    ensures feeding { HasFed K.P.seen shared.now.pool.now shared.now.desk.now shared.now.run_flushes feeding.old feeding.new }
    ensures admin_work { HasKept K.E.seen (K.T.may_say shared.now.clock.now) shared.now.pool.now shared.now.desk.now shared.now.run_flushes admin_work.old admin_work.new }
    ensures line_work { HasReadLines K.S.seen (K.T.may_say shared.now.clock.now) shared.now.pool.now shared.now.desk.now shared.now.run_flushes line_work.old line_work.new }
    ensures drains { drains.new.outlets ≡ drains.old.outlets }
    ensures drained { (b : Backend) → WasDrained (at drains.old.outlets.now b) (at drains.new.drains b) (at result b) (back_of K.B.seen backs.old b) (back_of K.B.seen backs.new b) }
    ensures same_use { (b : Backend) → uses backs.new b ≡ uses backs.old b }
    ensures len { length posts.new ≡ length posts.old }
    ensures each { (i : ℕ) (d : _) → i < length posts.old → HasRun K.D.seen K.L.seen (K.T.may_say shared.now.clock.now) shared.now.pool.now shared.now.desk.now shared.now.run_flushes (slice_index_or posts.old i d) (slice_index_or posts.new i d) }
{
    let mut to_graphite = Draining {
        outlet: &drains.outlets.graphite,
        drain: &mut drains.drains.graphite,
        back: &mut backs.graphite.object,
        worked: NOTHING,
    };
    let mut to_console = Draining {
        outlet: &drains.outlets.console,
        drain: &mut drains.drains.console,
        back: &mut backs.console.object,
        worked: NOTHING,
    };
    run_with_pair(
        rt,
        shared,
        feeding,
        admin_work,
        line_work,
        &mut to_graphite,
        &mut to_console,
        posts,
    );
    PerBackend {
        graphite: to_graphite.worked,
        console: to_console.worked,
    }
}

// Runs the flusher over outlets, the keepers of both doors, the outlets' workers and the receivers side by side, until all have ended.
// The flusher stops the outlets' workers as it ends.
fn run_with_outlets<K: ObjectTypes, R: Threads + Wait + Log + Sync>(
    rt: &R,
    shared: &Shared<'_, K::G, K::T>,
    run_settings: &RunSettings<'_, K::G, K::T>,
    services: &mut ServicePosts,
    posts: &mut [Post<K::D, K::L>],
    objects: &mut ObjectsOf<'_, '_, '_, '_, K>,
    leads: &mut Leads<'_>,
    drains: &mut Drains<'_>,
) -> (Ends, PerBackend<Worked>)
    requires ready { AreReady (sights K.D.seen K.L.seen K.P.seen K.B.seen K.E.seen K.S.seen) shared.now (held services.old posts.old objects.old) }
    requires leads { AreReadyLeads leads.old }
    requires drains { (b : Backend) → IsNewDrain (at drains.old.outlets.now b) (at drains.old.drains b) }
    ensures ran { HaveRun (sights K.D.seen K.L.seen K.P.seen K.B.seen K.E.seen K.S.seen) shared.now (K.T.may_say shared.now.clock.now) run_settings.now.settings.now (held services.old posts.old objects.old) (held services.new posts.new objects.new) result.0 }
    ensures leads { AreReadyLeads leads.new }
    ensures flushes { Flushes (form_of shared.now.pool.now run_settings.now.form.plan.now run_settings.now.form.names.now) GivesOutlets StopsLeads shared.now.run_flushes (own_at services.old.flusher.seat) (own_at services.new.flusher.seat)
        (part_of services.old.flusher.own) (part_of services.new.flusher.own) leads.old leads.new (K.P.seen objects.old.beat.now) (K.P.seen objects.new.beat.now) result.0.flusher }
    ensures drains { drains.new.outlets ≡ drains.old.outlets }
    ensures drained { (b : Backend) → WasDrained (at drains.old.outlets.now b) (at drains.new.drains b) (at result.1 b) (back_of K.B.seen objects.old.backs.now b) (back_of K.B.seen objects.new.backs.now b) }
{
    let mut feeding = Feeding {
        post: &mut services.flusher,
        form: &run_settings.form,
        leads,
        beat: &mut *objects.beat,
        flushed: NOT_FLUSHED,
    };
    let mut admin_work = AdminWork {
        post: &mut services.admin,
        settings: run_settings.settings,
        door: &mut *objects.door,
        ended: DoorEnd::End,
    };
    let mut line_work = LineWork {
        post: &mut services.lines,
        door: &mut *objects.streams,
        ended: None,
    };
    let worked = run_drained::<K, R>(
        rt,
        shared,
        &mut feeding,
        &mut admin_work,
        &mut line_work,
        drains,
        objects.backs,
        posts,
    );
    let ends = Ends {
        flusher: feeding.flushed,
        keeper: admin_work.ended,
        line_reader: line_work.ended,
    };
    (ends, worked)
}

/// Runs the server's workers with outlets, and then closes those. What they hold and what is lent to them is left as each says of its
/// own work.
pub(crate) fn run_through_outlets<K: ObjectTypes, R: Threads + Wait + Log + Sync>(
    rt: &R,
    shared: &Shared<'_, K::G, K::T>,
    run_settings: &RunSettings<'_, K::G, K::T>,
    services: &mut ServicePosts,
    posts: &mut [Post<K::D, K::L>],
    outs: OutRooms,
    objects: &mut ObjectsOf<'_, '_, '_, '_, K>,
) -> (Ends, OutCounts)
    requires ready { AreReady (sights K.D.seen K.L.seen K.P.seen K.B.seen K.E.seen K.S.seen) shared.now (held services.old posts.old objects.old) }
    requires outs { AreOutRooms outs }
    ensures ran { HaveRun (sights K.D.seen K.L.seen K.P.seen K.B.seen K.E.seen K.S.seen) shared.now (K.T.may_say shared.now.clock.now) run_settings.now.settings.now (held services.old posts.old objects.old) (held services.new posts.new objects.new) result.0 }
    ensures flushes { (outlets : Bool) (room : OutletRoom) → HasOutRooms outlets room.buffers room.bytes (Some outs) → FlushesThrough (form_of shared.now.pool.now run_settings.now.form.plan.now run_settings.now.form.names.now) (uses objects.old.backs.now) outlets room shared.now.run_flushes (own_at services.old.flusher.seat) (own_at services.new.flusher.seat)
        (part_of services.old.flusher.own) (part_of services.new.flusher.own) (back_of K.B.seen objects.old.backs.now) (back_of K.B.seen objects.new.backs.now) (K.P.seen objects.old.beat.now) (K.P.seen objects.new.beat.now) result.0.flusher (Some result.1) }
{
    let PerBackend { graphite, console } = outs;
    let outlets = PerBackend {
        graphite: graphite.outlet,
        console: console.outlet,
    };
    let feeds = PerBackend {
        graphite: graphite.feed,
        console: console.feed,
    };
    let mut leads = leads_of(objects.backs, &outlets, feeds);
    let mut drains = Drains {
        outlets: &outlets,
        drains: PerBackend {
            graphite: graphite.drain,
            console: console.drain,
        },
    };
    let (ends, worked) = run_with_outlets::<K, R>(
        rt,
        shared,
        run_settings,
        services,
        posts,
        objects,
        &mut leads,
        &mut drains,
    );
    let graphite_feed = leads.graphite.into_feed();
    let console_feed = leads.console.into_feed();
    let PerBackend { graphite, console } = drains.drains;
    let rounds = ends.flusher.rounds;
    let to_graphite = offered(objects.backs.graphite.is_used, rounds);
    let to_console = offered(objects.backs.console.is_used, rounds);
    let counts = PerBackend {
        graphite: close_outlet(
            rt,
            outlets.graphite,
            graphite_feed,
            graphite,
            to_graphite,
            worked.graphite,
            &mut objects.backs.graphite.object,
        ),
        console: close_outlet(
            rt,
            outlets.console,
            console_feed,
            console,
            to_console,
            worked.console,
            &mut objects.backs.console.object,
        ),
    };
    (ends, counts)
}
