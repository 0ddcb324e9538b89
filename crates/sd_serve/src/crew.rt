//! The workers of a server take their posts, and leave them where its pool and its desk are closed.
ghost use Rattle.std.specs.Prelude.{◌≡◌, ◌+◌, ◌*◌, ◌≤◌, ◌++◌, flat_map, length, map, vec_capacity};
ghost use Rattle.sd_serve.specs.Closing.{IsClosed};
ghost use Rattle.sd_serve.specs.PostRooms.{source_in, wires_in};
ghost use Rattle.sd_serve.specs.Room.{IsRoom, sizing_in};
ghost use Rattle.sd_serve.specs.Services.{AreManned, IsCrew, all_owns, all_seats};

use crate::line_post::{put_line_post, take_line_post};
use crate::out_room::OutRooms;
use crate::post_rooms::{gather, give_back};
use crate::room::ServerRoom;
use crate::services::{AdminPost, ServicePosts};
use sd_desk::Desk;
use sd_flush::FlusherPost;
use sd_outside::{Datagrams, Ended, Wire};
use sd_pool::{Pool, Room, Seat, Seats};
use sd_receive::Post;
use sd_shard::Books;
use sd_shared_desk::{DeskSeat, SharedDesk};
use sd_workers::{put_first, take_first};

/// The lists of seats from which those of all workers were taken, and the room that closing the pool takes.
#[derive(Drop)]
pub(crate) struct SeatLists {
    pub seats: Vec<Seat>,
    pub owns: Vec<DeskSeat>,
    pub room: Room,
}

/// A server whose workers have their posts, with the room of outlets, if there are any, and of how its receivers end.
#[derive(Drop)]
pub(crate) struct Manned<D, L> {
    pub pool: Pool,
    pub desk: SharedDesk,
    pub services: ServicePosts,
    pub posts: Vec<Post<D, L>>,
    pub lists: SeatLists,
    pub outs: Option<OutRooms>,
    pub ends: Vec<Ended>,
}

/// Moves the first of the sources, each with its run of wires, and all seats into the posts of a server's workers.
pub(crate) fn man<D: Datagrams + Drop, L: Wire + Drop>(
    room: ServerRoom<D, L>,
    packets: &mut Vec<D>,
    wires: &mut Vec<L>,
) -> Manned<D, L>
    requires room { IsRoom room }
    requires packets { (sizing_in room).receivers ≤ length packets.old.items }
    requires wires { (sizing_in room).receivers * (sizing_in room).wires ≤ length wires.old.items }
    ensures manned { AreManned room result }
    ensures packets { packets.old.items ≡ map source_in result.posts.items ++ packets.new.items }
    ensures wires { wires.old.items ≡ flat_map wires_in result.posts.items ++ wires.new.items }
    ensures packets_room { vec_capacity packets.new ≡ vec_capacity packets.old }
    ensures wires_room { vec_capacity wires.new ≡ vec_capacity wires.old }
{
    let sizes = room.sizes;
    let seats = room.seats;
    let benches = room.benches;
    let postings = room.postings;
    let mut lists = SeatLists {
        seats: seats.receivers,
        owns: room.owns,
        room: seats.room,
    };
    let mut posts = postings.posts;
    gather(
        packets,
        wires,
        usize::from(sizes.wires),
        &mut lists.seats,
        &mut lists.owns,
        postings.rooms,
        &mut posts,
    );
    let lines = take_line_post(benches.lines, &mut lists.seats, &mut lists.owns);
    let flusher = FlusherPost {
        seat: seats.flusher,
        own: take_first(&mut lists.owns),
        tables: benches.tables,
    };
    let admin = AdminPost {
        seat: seats.admin,
        own: take_first(&mut lists.owns),
        space: benches.space,
    };
    Manned {
        pool: room.pool,
        desk: room.desk,
        services: ServicePosts {
            flusher,
            admin,
            lines,
        },
        posts,
        lists,
        outs: benches.outs,
        ends: postings.ends,
    }
}

/// Puts sources and wires back to where they stood, and closes the pool and the desk over all seats.
pub(crate) fn close<D: Datagrams + Drop, L: Wire + Drop>(
    pool: Pool,
    desk: SharedDesk,
    mut lists: SeatLists,
    services: ServicePosts,
    posts: Vec<Post<D, L>>,
    packets: &mut Vec<D>,
    wires: &mut Vec<L>,
) -> (Books, Desk)
    requires crew { IsCrew pool desk lists services posts.items }
    requires packets { length posts.items + length packets.old.items ≤ vec_capacity packets.old }
    requires wires { length (flat_map wires_in posts.items) + length wires.old.items ≤ vec_capacity wires.old }
    ensures packets { packets.new.items ≡ map source_in posts.items ++ packets.old.items }
    ensures wires { wires.new.items ≡ flat_map wires_in posts.items ++ wires.old.items }
    ensures closed { IsClosed pool desk (all_seats services posts.items) (all_owns services posts.items) result.0.items result.1 }
{
    let ServicePosts {
        flusher,
        admin,
        lines,
    } = services;
    put_first(&mut lists.owns, admin.own);
    put_first(&mut lists.owns, flusher.own);
    put_line_post(lines, &mut lists.seats, &mut lists.owns);
    give_back(posts, packets, wires, &mut lists.seats, &mut lists.owns);
    let seats = Seats {
        receivers: lists.seats,
        flusher: flusher.seat,
        admin: admin.seat,
        room: lists.room,
    };
    (pool.close(seats), desk.close(lists.owns))
}
