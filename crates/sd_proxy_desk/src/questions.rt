//! The questions of one check.
ghost use Rattle.std.specs.Prelude.{◌≡◌, ℕ, ◌<◌, ◌≤◌, ◌^◌, List, length, map, Option, option_map, codes};
ghost use Rattle.sd_model_outside.specs.Uses.{HasAsked};
ghost use Rattle.sd_plan.specs.Entries.{node_view};
ghost use Rattle.sd_outside.specs.Places.{place_of};
ghost use Rattle.sd_proxy_desk.specs.Questions.{AddsAnswer, HasAskedAll};
ghost use Rattle.sd_model_outside.specs.Outside.{Host};
ghost use Rattle.sd_model_text.specs.Lists.{trim_end, is_white_space};
ghost use Rattle.std.specs.Str.{bytes_eq};

use crate::reply::says_up;
use crate::telling::tell_node;
use log::Log;
use sd_decimal::Line;
use sd_outside::{Address, Probe};
use sd_plan::Node;

/// Where a node is asked how it is.
fn admin_address(node: &Node) -> Address
    ensures { place_of result ≡ Host (node_view node.now).host (node_view node.now).adminport }
{
    Address::Host {
        host: node.host.clone().unwrap(),
        port: node.adminport,
    }
}

/// Whether a node says that it is up; none where the question failed.
fn ask<Q: Probe>(node: &Node, probe: &mut Q, line: &mut Line) -> Option<bool>
    ensures { (answer : Option (List ℕ)) × HasAsked (Host (node_view node.now).host (node_view node.now).adminport) answer (Q.seen probe.old) (Q.seen probe.new)
        × (result ≡ option_map (λ reply. bytes_eq (trim_end is_white_space reply) (codes "health: up")) answer) }
{
    match probe.ask(&admin_address(node), line) {
        Ok(()) => Some(says_up(line.as_slice())),
        Err(_) => None,
    }
}

/// What questions found: the set of the nodes that say that they are up, and how many failed.
#[derive(Clone, Copy, Debug)]
pub(crate) struct Found {
    pub up: u64,
    pub failed: u64,
}

/// Asks the node in a place, and adds what came of it to what was found of the nodes before it.
fn ask_next<Q: Probe>(
    node: &Node,
    place: usize,
    probe: &mut Q,
    line: &mut Line,
    found: Found,
) -> Found
    requires place { (place < 64) × (found.up < 2 ^ place) }
    requires failed { found.failed ≤ place }
    ensures { (answer : Option (List ℕ)) × HasAsked (Host (node_view node.now).host (node_view node.now).adminport) answer (Q.seen probe.old) (Q.seen probe.new)
        × AddsAnswer place answer found result }
{
    match ask(node, probe, line) {
        Some(true) => Found {
            up: found.up + (1 << place),
            failed: found.failed,
        },
        Some(false) => found,
        None => Found {
            up: found.up,
            failed: found.failed + 1,
        },
    }
}

/// Asks each node, in order. The log is told of those that aren't up any more, by the set of those that were at the check before, or
/// are up again.
pub(crate) fn ask_all<Q: Probe, R: Log>(
    rt: &R,
    nodes: &[Node],
    before: u64,
    probe: &mut Q,
    line: &mut Line,
) -> Found
    requires { length nodes.now ≤ 64 }
    ensures { HasAskedAll (map node_view nodes.now) (Q.seen probe.old) (Q.seen probe.new) result.up result.failed }
{
    let mut found = Found { up: 0, failed: 0 };
    for (place, node) in nodes.iter().enumerate() {
        let without = found;
        found = ask_next(node, place, probe, line, found);
        tell_node(rt, node, place, before, without, found);
    }
    found
}
