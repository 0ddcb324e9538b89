use crate::live::Live;
use log::Log;
use sd_outside::{Datagrams, Ended, Wire};
use sd_proxy::{Proxied, ProxyHub, ProxyPass, Waiting, proxy_part};
use sd_ring::Ring;
use sd_workers::{Reports, Worker};
use std::sync::Wait;

/// The work of one receiver of a proxy in one value, and what it did, once it was run.
#[derive(Drop)]
pub struct Post<D, L> {
    pub ring: Ring,
    pub own: ProxyPass,
    pub packets: D,
    pub wires: Vec<L>,
    pub waiting: Vec<Waiting>,
    pub buf: Vec<u8>,
    pub got: Option<Proxied>,
}

impl<D: Datagrams, L: Wire> Post<D, L> {
    ghost use Rattle.sd_relay.specs.Posts.{IsReady, HasRun};

    /// Takes the datagrams of the post's source, each under the set that a look answers, counts each at the desk, and keeps what
    /// that did. It takes no memory but what the ring's cache asks for.
    pub fn run<R: Wait>(&mut self, rt: &R, hub: &ProxyHub<'_>)
        requires { IsReady hub.now.cell.now hub.now.desk.now self.old }
        ensures { HasRun D.seen L.seen hub.now.cell.now hub.now.desk.now self.old self.new }
    {
        let got = proxy_part(
            rt,
            hub,
            &mut self.own,
            &mut self.ring,
            &mut self.packets,
            self.wires.as_mut_slice(),
            self.waiting.as_mut_slice(),
            &mut self.buf,
        );
        self.got = Some(got);
    }
}

impl<'a, D: Datagrams, L: Wire, G> Worker<Live<'a, G>> for Post<D, L> {
    ghost use Rattle.sd_relay.specs.Posts.{IsReady, HasRun};

    ghost can_run = { λ live post. IsReady live.hub.cell.now live.hub.desk.now post };

    ghost has_run = { λ live old new. HasRun D.seen L.seen live.hub.cell.now live.hub.desk.now old new };

    fn run<R: Wait + Log>(&mut self, rt: &R, live: &Live<'a, G>) {
        self.run(rt, &live.hub);
    }
}

impl<D, L> Reports for Post<D, L> {
    ghost use Rattle.sd_relay.specs.Relaying.{ended_in};
    ghost use Rattle.sd_relay.specs.Sums.{WasRun};

    type End = Ended;

    ghost was_run = { WasRun };

    ghost ended_in = { ended_in };

    fn end(&self) -> Ended {
        match &self.got {
            Some(got) => got.ended,
            None => unreachable!(),
        }
    }
}
