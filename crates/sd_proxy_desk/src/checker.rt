//! The checks of a run.
ghost use Rattle.std.specs.Prelude.{◌≡◌, ◌+◌, ◌≤◌, ◌^◌, length, map, min};
ghost use Rattle.sd_plan.specs.Entries.{node_view};
ghost use Rattle.sd_live.specs.Live.{nodes_of, seen, IsCheckerOf};
ghost use Rattle.sd_proxy_desk.specs.Shared.{IsSeatOf, number_of_seat};
ghost use Rattle.sd_proxy_desk.specs.Checking.{Checks, check_seen};

use crate::checked::{CheckEnd, Checked};
use crate::questions::ask_all;
use crate::{ProxyHub, ProxyPass};
use log::Log;
use sd_decimal::Line;
use sd_outside::{Beat, Gate, Probe, Tick};
use sd_plan::Node;
use std::sync::Wait;

/// How many ticks a run takes at most.
const MOST_TICKS: u64 = 1 << 62;

/// All nodes, which are up before the first check.
const ALL: u64 = u64::MAX;

/// Where a count of faults stops.
const MOST_FAULTS: u64 = 1 << 63;

/// The gate's place behind each publication.
const PUBLISHED: u8 = 5;

/// At each tick of a beat asks all nodes, in order, and publishes the set of those that say that they are up; a node whose question
/// failed isn't. Behind each publication it counts the check, and the questions that failed, at the desk, and then passes the gate's
/// place 5. It ends once the beat has no tick left or fails, or as many came as may. It takes no memory.
pub fn check<P: Beat, Q: Probe, G: Gate, R: Wait + Log>(
    rt: &R,
    hub: &ProxyHub<'_>,
    own: &mut ProxyPass,
    nodes: &[Node],
    beat: &mut P,
    probe: &mut Q,
    gate: &G,
) -> Checked
    requires pass { IsCheckerOf hub.now.cell.now own.old.pass }
    requires seat { IsSeatOf hub.now.desk.now own.old.seat }
    requires fresh { length (seen own.old.pass) ≡ 1 }
    requires nodes { length nodes.now ≡ nodes_of hub.now.cell.now }
    ensures pass { IsCheckerOf hub.now.cell.now own.new.pass }
    ensures seat { IsSeatOf hub.now.desk.now own.new.seat × (number_of_seat own.new.seat ≡ number_of_seat own.old.seat) }
    ensures checks { Checks (map node_view nodes.now) (check_seen own.old (P.seen beat.old) (Q.seen probe.old)) (check_seen own.new (P.seen beat.new) (Q.seen probe.new)) result }
{
    let mut line = Line::new();
    let mut probe_faults = 0u64;
    let mut before = ALL;
    for made in 0..MOST_TICKS {
        match beat.next() {
            Tick::At(_) => (),
            Tick::End => return checked(CheckEnd::End, made, probe_faults),
            Tick::Failed => return checked(CheckEnd::Failed, made, probe_faults),
        }
        let found = ask_all(rt, nodes, before, probe, &mut line);
        hub.cell.publish(rt, &mut own.pass, found.up);
        hub.desk.count_check(rt, found.failed, &mut own.seat);
        before = found.up;
        gate.pass(PUBLISHED);
        probe_faults = risen(probe_faults, found.failed);
    }
    checked(
        CheckEnd::Worn { turns: MOST_TICKS },
        MOST_TICKS,
        probe_faults,
    )
}

/// What a checker did that ended so.
fn checked(ended: CheckEnd, checks: u64, probe_faults: u64) -> Checked
    ensures ended { result.ended ≡ ended }
    ensures checks { result.checks ≡ checks }
    ensures faults { result.probe_faults ≡ probe_faults }
{
    Checked {
        ended,
        checks,
        probe_faults,
    }
}

/// A count of faults after so many more, up to its end.
fn risen(faults: u64, more: u64) -> u64
    requires { faults ≤ 2 ^ 63 }
    ensures { result ≡ min (faults + more) (2 ^ 63) }
{
    faults + more.min(MOST_FAULTS - faults)
}
