//! The work of each worker over what is lent to it, and how it ended, once it was run.

use crate::line_post::LinePost;
use crate::services::AdminPost;
use log::Log;
use sd_config::Settings;
use sd_delivery::Leads;
use sd_flush::{Flushed, FlusherPost, RecordForm, flush_all};
use sd_outlet::{Drain, Outlet, Worked};
use sd_outside::{Backend, Backs, Beat, Clock, Door, DoorEnd, Gate};
use sd_session::doorkeep;
use sd_shared::Shared;
use sd_workers::Worker;
use std::sync::Wait;

/// The flusher's, which writes to the backends itself.
#[derive(Drop)]
pub(crate) struct Flushing<'s, 'p, 'f, 'b, 'e, B, E> {
    pub post: &'s mut FlusherPost,
    pub form: &'f RecordForm<'p>,
    pub backs: &'b mut Backs<B>,
    pub beat: &'e mut E,
    pub flushed: Flushed,
}

impl<'a, B: Backend, E: Beat, G: Gate, C: Clock> Worker<Shared<'a, G, C>>
    for Flushing<'_, '_, '_, '_, '_, B, E> {
    ghost use Rattle.sd_serve.specs.Work.{CanFlush, HasFlushed};

    ghost can_run = { λ shared flushing. CanFlush E.seen shared.pool.now shared.desk.now flushing };

    ghost has_run = { λ shared old new. HasFlushed B.seen E.seen shared.pool.now shared.desk.now shared.run_flushes old new };

    fn run<R: Wait + Log>(&mut self, rt: &R, shared: &Shared<'a, G, C>) {
        self.flushed = flush_all(rt, shared, self.post, self.form, self.beat, self.backs);
    }
}

/// The flusher's over outlets.
#[derive(Drop)]
pub(crate) struct Feeding<'s, 'p, 'f, 'u, 'l, 'e, E> {
    pub post: &'s mut FlusherPost,
    pub form: &'f RecordForm<'p>,
    pub leads: &'u mut Leads<'l>,
    pub beat: &'e mut E,
    pub flushed: Flushed,
}

impl<'a, E: Beat, G: Gate, C: Clock> Worker<Shared<'a, G, C>>
    for Feeding<'_, '_, '_, '_, '_, '_, E> {
    ghost use Rattle.sd_serve.specs.Work.{CanFeed, HasFed};

    ghost can_run = { λ shared feeding. CanFeed E.seen shared.pool.now shared.desk.now feeding };

    ghost has_run = { λ shared old new. HasFed E.seen shared.pool.now shared.desk.now shared.run_flushes old new };

    fn run<R: Wait + Log>(&mut self, rt: &R, shared: &Shared<'a, G, C>) {
        self.flushed = flush_all(rt, shared, self.post, self.form, self.beat, self.leads);
    }
}

/// That of the keeper of the admin door.
#[derive(Drop)]
pub(crate) struct AdminWork<'s, 'f, 'd, E> {
    pub post: &'s mut AdminPost,
    pub settings: &'f Settings,
    pub door: &'d mut E,
    pub ended: DoorEnd,
}

impl<'a, E: Door, G: Gate, C: Clock> Worker<Shared<'a, G, C>> for AdminWork<'_, '_, '_, E> {
    ghost use Rattle.sd_serve.specs.Work.{CanKeep, HasKept};

    ghost can_run = { λ shared admin_work. CanKeep E.seen shared.pool.now shared.desk.now admin_work };

    ghost has_run = { λ shared old new. HasKept E.seen (C.may_say shared.clock.now) shared.pool.now shared.desk.now shared.run_flushes old new };

    fn run<R: Wait + Log>(&mut self, rt: &R, shared: &Shared<'a, G, C>) {
        let post = &mut *self.post;
        self.ended = doorkeep(
            rt,
            shared,
            &mut post.own,
            &mut post.seat,
            self.settings,
            &mut post.space,
            self.door,
        );
    }
}

/// That of the reader of lines, if there is one.
#[derive(Drop)]
pub(crate) struct LineWork<'p, 'd, E> {
    pub post: &'p mut Option<LinePost>,
    pub door: &'d mut E,
    pub ended: Option<DoorEnd>,
}

impl<'a, E: Door, G: Gate, C: Clock> Worker<Shared<'a, G, C>> for LineWork<'_, '_, E> {
    ghost use Rattle.sd_serve.specs.Work.{CanLine, HasReadLines};

    ghost can_run = { λ shared line_work. CanLine E.seen shared.pool.now shared.desk.now line_work };

    ghost has_run = { λ shared old new. HasReadLines E.seen (C.may_say shared.clock.now) shared.pool.now shared.desk.now shared.run_flushes old new };

    fn run<R: Wait + Log>(&mut self, rt: &R, shared: &Shared<'a, G, C>) {
        if let Some(post) = &mut *self.post {
            self.ended = Some(post.run(rt, shared, self.door));
        }
    }
}

/// That of an outlet's worker, and what it wrote.
#[derive(Drop)]
pub(crate) struct Draining<'o, 'd, 'b, B> {
    pub outlet: &'o Outlet,
    pub drain: &'d mut Drain,
    pub back: &'b mut B,
    pub worked: Worked,
}

impl<'a, B: Backend, G: Gate, C: Clock> Worker<Shared<'a, G, C>> for Draining<'_, '_, '_, B> {
    ghost use Rattle.sd_serve.specs.Work.{CanDrain, HasDrained};

    ghost can_run = { λ shared draining. CanDrain draining };

    ghost has_run = { λ shared old new. HasDrained B.seen old new };

    fn run<R: Wait + Log>(&mut self, rt: &R, shared: &Shared<'a, G, C>) {
        self.worked = self
            .outlet
            .work(rt, &mut self.drain, self.back, shared.gate);
    }
}
