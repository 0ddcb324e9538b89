//! A proxy from its room to its totals.
ghost use Rattle.std.specs.Prelude.{◌+◌, ◌*◌, ◌≤◌, length};
ghost use Rattle.sd_relay.specs.Objects.{IsDoorBefore, StayParts, objects_of};
ghost use Rattle.sd_relay.specs.Relaying.{HasRelayed, lines_in, receivers_in};
ghost use Rattle.sd_relay.specs.Room.{IsClearRoom, IsRoomFor};

use crate::live::Live;
use crate::objects::RelayParts;
use crate::own_parts::{HubRoom, close_hub};
use crate::room::RelayRoom;
use crate::sums::{ProxySums, add_up, with_lines};
use crate::workers::run_relays;
use log::Log;
use sd_config::Settings;
use sd_outside::{Beat, Datagrams, Door, Ended, Gate, Probe, Wire};
use sd_proxy::{Checked, ProxyHub};
use sd_workers::ends_in;
use std::sync::Wait;
use std::thread::Threads;

/// What a run of a proxy left: how each receiver ended, in order, what the checker did, and what all receivers, and the reader of lines,
/// counted.
#[derive(Drop)]
pub struct Relayed {
    pub received: Vec<Ended>,
    pub checked: Checked,
    pub sums: ProxySums,
}

/// Runs a proxy's checker; the keeper of its port, where the settings have one; its receivers over the first of the sources, each with
/// its run of wires; and its reader of lines, where the room has one, with the run of wires behind those, until all have ended; then
/// closes the cell and the desk. Sources and wires then stand where they stood. It takes no memory but what the rings' caches ask for.
pub fn relay<
    'a,
    D: Datagrams + Send + Drop,
    L: Wire + Send + Drop,
    S: Door<Asking: Send, Telling: Send> + Send,
    P: Beat + Send,
    Q: Probe + Send,
    E: Door<Asking: Send, Telling: Send> + Send,
    G: Gate + Sync,
    R: Threads + Wait + Log + Sync,
>(
    rt: &R,
    room: RelayRoom<D, L>,
    settings: &'a Settings,
    parts: &mut RelayParts<'_, '_, '_, '_, '_, '_, D, L, S, P, Q, E>,
    gate: &'a G,
) -> Relayed
    requires room { IsRoomFor settings.now.lists.nodes (receivers_in room) (lines_in room) room }
    requires packets { receivers_in room ≤ length parts.old.packets.now.items }
    requires wires { (receivers_in room + lines_in room) * length settings.now.lists.nodes ≤ length parts.old.wires.now.items }
    requires lines { IsDoorBefore (S.seen parts.old.lines.now) }
    requires door { IsDoorBefore (E.seen parts.old.door.now) }
    ensures relayed { IsClearRoom settings.now.transport.batch_bytes room → HasRelayed settings.now (receivers_in room) (lines_in room)
        (objects_of D.seen L.seen S.seen P.seen Q.seen E.seen parts.old) (objects_of D.seen L.seen S.seen P.seen Q.seen E.seen parts.new) result }
    ensures parts { StayParts parts.old parts.new }
{
    let HubRoom {
        cell,
        desk,
        mut owns,
    } = room.hub;
    let nodes = settings.nodes();
    let mut posts = room
        .postings
        .gather(nodes, &mut owns, parts.packets, parts.wires);
    let hub = ProxyHub {
        cell: &cell,
        desk: &desk,
    };
    let live = Live::new(hub, settings, gate);
    let checked = run_relays(
        rt,
        &live,
        &mut owns.checker,
        &mut owns.port,
        parts,
        &mut posts,
    );
    let received = ends_in(&posts.receivers, room.ends);
    let sums = with_lines(add_up(&posts.receivers), &posts.lines);
    posts.give_back(&mut owns, parts.packets, parts.wires);
    close_hub(rt, cell, desk, owns);
    Relayed {
        received,
        checked,
        sums,
    }
}
