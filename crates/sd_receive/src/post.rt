use crate::received::Received;
use crate::receiving::receive;
use log::Log;
use sd_batch::Batch;
use sd_outside::{Clock, Datagrams, Ended, Gate, Wire};
use sd_pool::Seat;
use sd_shared::Shared;
use sd_shared_desk::DeskSeat;
use sd_workers::{Reports, Worker};
use std::sync::Wait;

/// The work of one receiver in one value, and what it did, once it was run.
#[derive(Drop)]
pub struct Post<D, L> {
    pub packets: D,
    pub wires: Vec<L>,
    pub seat: Seat,
    pub own: DeskSeat,
    pub buf: Vec<u8>,
    pub batch: Batch,
    pub got: Option<Received>,
}

impl<D: Datagrams, L: Wire> Post<D, L> {
    ghost use Rattle.sd_receive.specs.Posts.{IsReady, HasRun};

    /// Receives with the parts of the post, and keeps what that did. It takes no memory.
    pub fn run<G: Gate, C: Clock, R: Wait + Log>(&mut self, rt: &R, shared: &Shared<'_, G, C>)
        requires { IsReady shared.now.pool.now shared.now.desk.now self.old }
        ensures { HasRun D.seen L.seen (C.may_say shared.now.clock.now) shared.now.pool.now shared.now.desk.now shared.now.run_flushes self.old self.new }
    {
        let got = receive(
            rt,
            shared,
            &mut self.own,
            &mut self.seat,
            &mut self.packets,
            self.wires.as_mut_slice(),
            &mut self.buf,
            &mut self.batch,
        );
        self.got = Some(got);
    }
}

impl<'a, D: Datagrams, L: Wire, G: Gate, C: Clock> Worker<Shared<'a, G, C>> for Post<D, L> {
    ghost use Rattle.sd_receive.specs.Posts.{IsReady, HasRun};

    ghost can_run = { λ shared post. IsReady shared.pool.now shared.desk.now post };

    ghost has_run = { λ shared old new. HasRun D.seen L.seen (C.may_say shared.clock.now) shared.pool.now shared.desk.now shared.run_flushes old new };

    fn run<R: Wait + Log>(&mut self, rt: &R, shared: &Shared<'a, G, C>) {
        self.run(rt, shared);
    }
}

impl<D, L> Reports for Post<D, L> {
    ghost use Rattle.sd_receive.specs.Posts.{WasRun, ended_in};

    type End = Ended;

    ghost was_run = { WasRun };

    ghost ended_in = { ended_in };

    fn end(&self) -> Ended {
        match &self.got {
            Some(got) => got.ended,
            None => unreachable!(),
        }
    }
}
