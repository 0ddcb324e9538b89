use crate::live::Live;
use log::Log;
use sd_outside::{Beat, Gate, Probe};
use sd_plan::Node;
use sd_proxy::{CheckEnd, Checked, ProxyPass, check};
use sd_workers::Worker;
use std::sync::Wait;

/// The checker's work over what is lent to it, and what it did, once it was run.
#[derive(Drop)]
pub(crate) struct Checking<'p, 'n, 'b, 'q, P, Q> {
    pub own: &'p mut ProxyPass,
    pub nodes: &'n [Node],
    pub beat: &'b mut P,
    pub probe: &'q mut Q,
    pub got: Checked,
}

impl<'p, 'n, 'b, 'q, P, Q> Checking<'p, 'n, 'b, 'q, P, Q> {
    ghost use Rattle.sd_relay.specs.Checking.{IsOver};

    /// The work of a checker over these, before it is run.
    pub fn new(
        own: &'p mut ProxyPass,
        nodes: &'n [Node],
        beat: &'b mut P,
        probe: &'q mut Q,
    ) -> Checking<'p, 'n, 'b, 'q, P, Q>
        ensures { IsOver own.entry nodes.entry beat.entry probe.entry result }
    {
        let got = Checked {
            ended: CheckEnd::End,
            checks: 0,
            probe_faults: 0,
        };
        Checking {
            own,
            nodes,
            beat,
            probe,
            got,
        }
    }
}

impl<'a, P: Beat, Q: Probe, G: Gate> Worker<Live<'a, G>> for Checking<'_, '_, '_, '_, P, Q> {
    ghost use Rattle.sd_relay.specs.Checking.{CanCheck, HasChecked};

    ghost can_run = { λ live checking. CanCheck live.hub.cell.now live.hub.desk.now checking };

    ghost has_run = { λ live old new. HasChecked P.seen Q.seen live.hub.cell.now live.hub.desk.now old new };

    fn run<R: Wait + Log>(&mut self, rt: &R, live: &Live<'a, G>) {
        self.got = check(
            rt, &live.hub, self.own, self.nodes, self.beat, self.probe, live.gate,
        );
    }
}
