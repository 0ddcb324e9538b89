//! What a checker tells the log of its nodes.

use crate::questions::Found;
use log::Log;
use sd_event::{HostPort, node_down, node_up};
use sd_plan::Node;

/// Whether a set of nodes has the one in a place.
fn has(set: u64, place: usize) -> bool {
    match u32::try_from(place) {
        Ok(place) => set.checked_shr(place).unwrap_or(0) % 2 == 1,
        Err(_) => false,
    }
}

/// Tells where a node that was among those that were up at the check before isn't any more, or is again, by what was found without
/// its answer and with it.
pub(crate) fn tell_node<L: Log>(
    log: &L,
    node: &Node,
    place: usize,
    before: u64,
    without: Found,
    found: Found,
) {
    let was_up = has(before, place);
    let is_up = has(found.up, place);
    let address = HostPort {
        host: node.host.as_slice(),
        port: node.port,
    };
    if was_up && !is_up {
        let has_answered = found.failed == without.failed;
        node_down(log, address, has_answered);
    } else if !was_up && is_up {
        node_up(log, address);
    }
}
