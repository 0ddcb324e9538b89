ghost use Rattle.std.specs.Prelude.{◌<◌, ◌≤◌, IfOk, if◌then◌else◌, length, map};
ghost use Rattle.sd_plan.specs.Entries.{node_view};

use crate::own_parts::{HubRoom, open_hub};
use crate::postings::Postings;
use sd_outside::Ended;
use sd_plan::Node;
use std::alloc::{AllocError, Global};

/// All that a proxy works on, in room that is taken before its workers start. Nothing was done yet.
#[derive(Drop)]
pub struct RelayRoom<D, L> {
    pub(crate) hub: HubRoom,
    pub(crate) postings: Postings<D, L>,
    pub(crate) ends: Vec<Ended>,
}

impl<D: Drop, L: Drop> RelayRoom<D, L> {
    ghost use Rattle.sd_relay.specs.Room.{IsClearRoom, IsRoomFor};

    /// Takes the room of a proxy of these nodes with so many receivers, and with a reader of lines over TCP, where it has one, each with
    /// a ring that remembers so many keys, and with room for a packet of so many bytes to each node; of its checker; and of the keeper
    /// of its port.
    ///
    /// # Errors
    ///
    /// Where no memory is left for it, or there are more than 65,532 receivers.
    pub fn open(
        alloc: Global,
        nodes: &[Node],
        receivers: u16,
        has_lines: bool,
        cache: u32,
        batch: u32,
    ) -> Result<RelayRoom<D, L>, AllocError>
        requires nodes { (0 < length nodes.now) × (length nodes.now ≤ 64) }
        requires receivers { 0 < receivers }
        requires cache { 0 < cache }
        ensures room { IfOk result (IsRoomFor (map node_view nodes.now) receivers (if has_lines then 1 else 0)) }
        ensures clear { IfOk result (IsClearRoom batch) }
    {
        Ok(RelayRoom {
            hub: open_hub(alloc, nodes.len() as u8, receivers, has_lines)?,
            postings: Postings::open(alloc, nodes, receivers, has_lines, cache, batch)?,
            ends: Vec::with_capacity(alloc, usize::from(receivers))?,
        })
    }
}
