//! The parts of receivers are moved into posts, and back to where they stood.
ghost use Rattle.std.specs.Prelude.{◌≡◌, ℕ, ◌+◌, ◌*◌, ◌<◌, ◌≤◌, [], ◌∷◌, ◌++◌, All, IfOk, flat_map, length, map, vec_capacity, vec_len};
ghost use Rattle.sd_serve.specs.PostRooms.{HasBatch, HasPlace, IsBatched, IsFitted, own_in, seat_in, source_in, wires_in};

use sd_batch::Batch;
use sd_outside::{Datagrams, Wire};
use sd_pool::Seat;
use sd_receive::Post;
use sd_shared_desk::DeskSeat;
use sd_workers::{datagram_room, put_first, put_run, take_first, take_run};
use std::alloc::{AllocError, Global};

// How many samples of a datagram wait at once to be submitted.
pub(crate) const BATCH: u16 = 64;

/// The room of a receiver: for its wires, for a datagram, and for samples that wait.
#[derive(Drop)]
pub(crate) struct PostRoom<L> {
    pub wires: Vec<L>,
    pub buf: Vec<u8>,
    pub batch: Batch,
}

/// Room for so many receivers with so many wires each, and samples of so many shards.
///
/// # Errors
///
/// Where no memory is left for it.
pub(crate) fn open_rooms<L: Drop>(
    alloc: Global,
    count: usize,
    run: usize,
    shards: u16,
) -> Result<Vec<PostRoom<L>>, AllocError>
    requires some { 0 < shards }
    ensures count { IfOk result (λ rooms. length rooms.items ≡ count) }
    ensures each { IfOk result (λ rooms. All (HasPlace run) rooms.items) }
    ensures batches { IfOk result (λ rooms. All (HasBatch shards) rooms.items) }
{
    let mut rooms = Vec::with_capacity(alloc, count)?;
    for _ in 0..count {
        rooms.push_reserved(PostRoom {
            wires: Vec::with_capacity(alloc, run)?,
            buf: datagram_room(alloc)?,
            batch: Batch::open(alloc, shards, BATCH)?,
        });
    }
    Ok(rooms)
}

/// Moves the first of the sources, each with a run of so many wires, and the first of both lists of seats, into posts: one for
/// each room.
pub(crate) fn gather<D: Datagrams + Drop, L: Wire + Drop>(
    packets: &mut Vec<D>,
    wires: &mut Vec<L>,
    run: usize,
    seats: &mut Vec<Seat>,
    owns: &mut Vec<DeskSeat>,
    mut rooms: Vec<PostRoom<L>>,
    posts: &mut Vec<Post<D, L>>,
)
    requires none { posts.old.items ≡ [] }
    requires room { length rooms.items ≤ vec_capacity posts.old }
    requires rooms { All (HasPlace run) rooms.items }
    requires packets { length rooms.items ≤ length packets.old.items }
    requires wires { length rooms.items * run ≤ length wires.old.items }
    requires seats { length rooms.items ≤ length seats.old.items }
    requires owns { length rooms.items ≤ length owns.old.items }
    ensures len { length posts.new.items ≡ length rooms.items }
    ensures fitted { All (IsFitted run) posts.new.items }
    ensures batches { (shards : ℕ) → All (HasBatch shards) rooms.items → All (IsBatched shards) posts.new.items }
    ensures packets { packets.old.items ≡ map source_in posts.new.items ++ packets.new.items }
    ensures wires { wires.old.items ≡ flat_map wires_in posts.new.items ++ wires.new.items }
    ensures seats { seats.old.items ≡ map seat_in posts.new.items ++ seats.new.items }
    ensures owns { owns.old.items ≡ map own_in posts.new.items ++ owns.new.items }
    ensures packets_room { vec_capacity packets.new ≡ vec_capacity packets.old }
    ensures wires_room { vec_capacity wires.new ≡ vec_capacity wires.old }
    ensures seats_room { vec_capacity seats.new ≡ vec_capacity seats.old }
    ensures owns_room { vec_capacity owns.new ≡ vec_capacity owns.old }
{
    while let Some(room) = rooms.pop() {
        posts.push_reserved(Post {
            packets: take_first(packets),
            wires: take_run(wires, room.wires, run),
            seat: take_first(seats),
            own: take_first(owns),
            buf: room.buf,
            batch: room.batch,
            got: None,
        });
    }
}

/// Moves the parts of posts back before what is left of each list, in order.
pub(crate) fn give_back<D: Datagrams + Drop, L: Wire + Drop>(
    mut posts: Vec<Post<D, L>>,
    packets: &mut Vec<D>,
    wires: &mut Vec<L>,
    seats: &mut Vec<Seat>,
    owns: &mut Vec<DeskSeat>,
)
    requires packets { length posts.items + length packets.old.items ≤ vec_capacity packets.old }
    requires wires { length (flat_map wires_in posts.items) + length wires.old.items ≤ vec_capacity wires.old }
    requires seats { length posts.items + length seats.old.items ≤ vec_capacity seats.old }
    requires owns { length posts.items + length owns.old.items ≤ vec_capacity owns.old }
    ensures packets { packets.new.items ≡ map source_in posts.items ++ packets.old.items }
    ensures wires { wires.new.items ≡ flat_map wires_in posts.items ++ wires.old.items }
    ensures seats { seats.new.items ≡ map seat_in posts.items ++ seats.old.items }
    ensures owns { owns.new.items ≡ map own_in posts.items ++ owns.old.items }
    ensures packets_room { vec_capacity packets.new ≡ vec_capacity packets.old }
    ensures wires_room { vec_capacity wires.new ≡ vec_capacity wires.old }
    ensures seats_room { vec_capacity seats.new ≡ vec_capacity seats.old }
    ensures owns_room { vec_capacity owns.new ≡ vec_capacity owns.old }
{
    while let Some(post) = posts.pop() {
        put_first(packets, post.packets);
        put_run(wires, post.wires);
        put_first(seats, post.seat);
        put_first(owns, post.own);
    }
}
