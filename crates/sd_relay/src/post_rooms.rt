//! The parts of receivers are moved into posts, and back to where they stood.
ghost use Rattle.std.specs.Prelude.{◌≡◌, ◌+◌, ◌*◌, ◌<◌, ◌≤◌, [], ◌∷◌, ◌++◌, ℕ, All, IfOk, flat_map, length, map, vec_capacity, vec_len};
ghost use Rattle.sd_plan.specs.Entries.{node_view};
ghost use Rattle.sd_relay.specs.PostRooms.{HasPlace, IsClear, IsFitted, NoLineWaits, own_in, source_in, wires_in};

use crate::post::Post;
use sd_outside::{Datagrams, Wire};
use sd_plan::Node;
use sd_proxy::{ProxyPass, Waiting};
use sd_ring::Ring;
use sd_workers::{datagram_room, put_first, put_run, take_first, take_run};
use std::alloc::{AllocError, Global};

/// The room of what sends lines on: its ring, and room for its wires and for the lines that wait for each node.
#[derive(Drop)]
pub(crate) struct SendRoom<L> {
    pub ring: Ring,
    pub wires: Vec<L>,
    pub waiting: Vec<Waiting>,
}

impl<L: Drop> SendRoom<L> {
    ghost use Rattle.sd_relay.specs.PostRooms.{HasSends, NoneToSend};

    /// Such room with a ring of these nodes, which remembers so many keys, a place for a wire to each, and room for a packet of so
    /// many bytes to each.
    ///
    /// # Errors
    ///
    /// Where no memory is left for it.
    pub fn open(
        alloc: Global,
        nodes: &[Node],
        cache: u32,
        batch: u32,
    ) -> Result<SendRoom<L>, AllocError>
        requires nodes { length nodes.now ≤ 64 }
        requires cache { 0 < cache }
        ensures place { IfOk result (HasSends (map node_view nodes.now)) }
        ensures clear { IfOk result (NoneToSend batch) }
    {
        Ok(SendRoom {
            ring: Ring::open(alloc, nodes, cache)?,
            wires: Vec::with_capacity(alloc, nodes.len())?,
            waiting: Waiting::for_nodes(alloc, nodes.len(), batch)?,
        })
    }
}

/// The room of a receiver: to send lines on, and for a datagram.
#[derive(Drop)]
pub(crate) struct PostRoom<L> {
    pub sends: SendRoom<L>,
    pub buf: Vec<u8>,
}

/// Room for so many receivers, each with a ring of these nodes, which remembers so many keys, a wire for each, and room for a packet
/// of so many bytes to each.
///
/// # Errors
///
/// Where no memory is left for it.
pub(crate) fn open_rooms<L: Drop>(
    alloc: Global,
    nodes: &[Node],
    count: usize,
    cache: u32,
    batch: u32,
) -> Result<Vec<PostRoom<L>>, AllocError>
    requires nodes { length nodes.now ≤ 64 }
    requires cache { 0 < cache }
    ensures count { IfOk result (λ rooms. length rooms.items ≡ count) }
    ensures each { IfOk result (λ rooms. All (HasPlace (map node_view nodes.now)) rooms.items) }
    ensures clear { IfOk result (λ rooms. All (IsClear batch) rooms.items) }
{
    let mut rooms = Vec::with_capacity(alloc, count)?;
    for _ in 0..count {
        rooms.push_reserved(PostRoom {
            sends: SendRoom::open(alloc, nodes, cache, batch)?,
            buf: datagram_room(alloc)?,
        });
    }
    Ok(rooms)
}

/// Moves the first of the sources, each with a run of wires, one for each of these nodes, and the first of what threads have of cell
/// and desk into posts: one for each room.
pub(crate) fn gather<D: Datagrams + Drop, L: Wire + Drop>(
    packets: &mut Vec<D>,
    wires: &mut Vec<L>,
    nodes: &[Node],
    owns: &mut Vec<ProxyPass>,
    mut rooms: Vec<PostRoom<L>>,
    posts: &mut Vec<Post<D, L>>,
)
    requires none { posts.old.items ≡ [] }
    requires room { length rooms.items ≤ vec_capacity posts.old }
    requires rooms { All (HasPlace (map node_view nodes.now)) rooms.items }
    requires packets { length rooms.items ≤ length packets.old.items }
    requires wires { length rooms.items * length nodes.now ≤ length wires.old.items }
    requires owns { length rooms.items ≤ length owns.old.items }
    ensures len { length posts.new.items ≡ length rooms.items }
    ensures fitted { All (IsFitted (map node_view nodes.now)) posts.new.items }
    ensures clear { (most : ℕ) → All (IsClear most) rooms.items → All (NoLineWaits most) posts.new.items }
    ensures packets { packets.old.items ≡ map source_in posts.new.items ++ packets.new.items }
    ensures wires { wires.old.items ≡ flat_map wires_in posts.new.items ++ wires.new.items }
    ensures owns { owns.old.items ≡ map own_in posts.new.items ++ owns.new.items }
    ensures packets_room { vec_capacity packets.new ≡ vec_capacity packets.old }
    ensures wires_room { vec_capacity wires.new ≡ vec_capacity wires.old }
    ensures owns_room { vec_capacity owns.new ≡ vec_capacity owns.old }
{
    while let Some(room) = rooms.pop() {
        let PostRoom { sends, buf } = room;
        posts.push_reserved(Post {
            ring: sends.ring,
            waiting: sends.waiting,
            buf,
            got: None,
            own: take_first(owns),
            packets: take_first(packets),
            wires: take_run(wires, sends.wires, nodes.len()),
        });
    }
}

/// Moves the parts of posts back before what is left of each list, in order.
pub(crate) fn give_back<D: Datagrams + Drop, L: Wire + Drop>(
    mut posts: Vec<Post<D, L>>,
    packets: &mut Vec<D>,
    wires: &mut Vec<L>,
    owns: &mut Vec<ProxyPass>,
)
    requires packets { length posts.items + length packets.old.items ≤ vec_capacity packets.old }
    requires wires { length (flat_map wires_in posts.items) + length wires.old.items ≤ vec_capacity wires.old }
    requires owns { length posts.items + length owns.old.items ≤ vec_capacity owns.old }
    ensures packets { packets.new.items ≡ map source_in posts.items ++ packets.old.items }
    ensures wires { wires.new.items ≡ flat_map wires_in posts.items ++ wires.old.items }
    ensures owns { owns.new.items ≡ map own_in posts.items ++ owns.old.items }
    ensures packets_room { vec_capacity packets.new ≡ vec_capacity packets.old }
    ensures wires_room { vec_capacity wires.new ≡ vec_capacity wires.old }
    ensures owns_room { vec_capacity owns.new ≡ vec_capacity owns.old }
{
    while let Some(post) = posts.pop() {
        put_first(packets, post.packets);
        put_run(wires, post.wires);
        put_first(owns, post.own);
    }
}
