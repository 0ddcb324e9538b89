//! What the reader of lines works with, if there is one.
ghost use Rattle.std.specs.Prelude.{◌≡◌, ◌+◌, ◌<◌, ◌≤◌, ◌^◌, ◌++◌, false, IfOk, length, vec_capacity};
ghost use Rattle.sd_serve.specs.LinePost.{HasLineRoom, line_owns, line_rooms, line_seats, lines_in};

use crate::post_rooms::BATCH;
use log::Log;
use sd_batch::Batch;
use sd_outside::{Clock, Door, DoorEnd, Gate};
use sd_pool::Seat;
use sd_receive::linekeep;
use sd_shared::Shared;
use sd_shared_desk::DeskSeat;
use sd_tcp::Cutter;
use sd_workers::{datagram_room, put_first, take_first};
use std::alloc::{AllocError, Global};
use std::sync::Wait;

/// The room of the reader of lines: for the line that it has begun, for the bytes of a read, and for samples that wait.
#[derive(Drop)]
pub struct LineRoom {
    pub cutter: Cutter,
    pub buf: Vec<u8>,
    pub batch: Batch,
}

/// The seats and the room of the reader of lines.
#[derive(Drop)]
pub struct LinePost {
    pub seat: Seat,
    pub own: DeskSeat,
    pub room: LineRoom,
}

impl LinePost {
    ghost use Rattle.sd_serve.specs.LinePost.{IsLineReady, WereLinesRead};

    /// Reads the streams of a door with the parts of the post. It takes no memory.
    pub fn run<E: Door, G: Gate, C: Clock, R: Wait + Log>(
        &mut self,
        rt: &R,
        shared: &Shared<'_, G, C>,
        door: &mut E,
    ) -> DoorEnd
        requires ready { IsLineReady shared.now.pool.now shared.now.desk.now self.old }
        requires none_out { (E.seen door.old).is_out ≡ false }
        requires turns { (E.seen door.old).turns < 2 ^ 62 }
        ensures { WereLinesRead (C.may_say shared.now.clock.now) shared.now.pool.now shared.now.desk.now shared.now.run_flushes self.old self.new result (E.seen door.old) (E.seen door.new) }
    {
        let lines_read = linekeep(
            rt,
            shared,
            &mut self.own,
            &mut self.seat,
            &mut self.room.cutter,
            door,
            &mut self.room.buf,
            &mut self.room.batch,
        );
        lines_read.ended
    }
}

/// The room of the reader of lines, where lines of streams are read.
///
/// # Errors
///
/// Where no memory is left for it.
pub(crate) fn open_line_room(
    alloc: Global,
    streams: bool,
    shards: u16,
) -> Result<Option<LineRoom>, AllocError>
    requires { 0 < shards }
    ensures { IfOk result (HasLineRoom streams shards) }
{
    if !streams {
        return Ok(None);
    }
    Ok(Some(LineRoom {
        cutter: Cutter::open(alloc)?,
        buf: datagram_room(alloc)?,
        batch: Batch::open(alloc, shards, BATCH)?,
    }))
}

/// Moves the first of both lists of seats into a post, where there is room for one.
pub(crate) fn take_line_post(
    room: Option<LineRoom>,
    seats: &mut Vec<Seat>,
    owns: &mut Vec<DeskSeat>,
) -> Option<LinePost>
    requires seats { length (lines_in room) ≤ length seats.old.items }
    requires owns { length (lines_in room) ≤ length owns.old.items }
    ensures room { line_rooms result ≡ lines_in room }
    ensures seats { seats.old.items ≡ line_seats result ++ seats.new.items }
    ensures owns { owns.old.items ≡ line_owns result ++ owns.new.items }
    ensures seats_room { vec_capacity seats.new ≡ vec_capacity seats.old }
    ensures owns_room { vec_capacity owns.new ≡ vec_capacity owns.old }
{
    let room = room?;
    Some(LinePost {
        seat: take_first(seats),
        own: take_first(owns),
        room,
    })
}

/// Moves the seats of a post, if there is one, before what is left of each list.
pub(crate) fn put_line_post(post: Option<LinePost>, seats: &mut Vec<Seat>, owns: &mut Vec<DeskSeat>)
    requires seats { length (line_seats post) + length seats.old.items ≤ vec_capacity seats.old }
    requires owns { length (line_owns post) + length owns.old.items ≤ vec_capacity owns.old }
    ensures seats { seats.new.items ≡ line_seats post ++ seats.old.items }
    ensures owns { owns.new.items ≡ line_owns post ++ owns.old.items }
    ensures seats_room { vec_capacity seats.new ≡ vec_capacity seats.old }
    ensures owns_room { vec_capacity owns.new ≡ vec_capacity owns.old }
{
    if let Some(post) = post {
        put_first(seats, post.seat);
        put_first(owns, post.own);
    }
}
