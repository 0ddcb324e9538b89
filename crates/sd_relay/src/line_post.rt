//! What the reader of lines over TCP works with, if there is one.
ghost use Rattle.std.specs.Prelude.{◌≡◌, ◌+◌, ◌*◌, ◌<◌, ◌≤◌, ◌++◌, ℕ, IfOk, IfSome, if◌then◌else◌, length, map, option_to_list, vec_capacity};
ghost use Rattle.sd_plan.specs.Entries.{node_view};
ghost use Rattle.sd_relay.specs.LinePost.{HasLinePlace, IsClearLine, IsLineFitted, NoneWaitsInLine, line_owns, line_wires};

use crate::post_rooms::SendRoom;
use sd_outside::{Door, Wire};
use sd_plan::Node;
use sd_proxy::{Lined, ProxyHub, ProxyPass, StreamRoom, Waiting, line_part};
use sd_ring::Ring;
use sd_workers::{put_run, take_run};
use std::alloc::{AllocError, Global};
use std::sync::Wait;

/// The room of the reader of lines: to send lines on, and to read a stream.
#[derive(Drop)]
pub(crate) struct LineRoom<L> {
    pub sends: SendRoom<L>,
    pub stream: StreamRoom,
}

/// The work of the reader of lines in one value, and what it did, once it was run.
#[derive(Drop)]
pub(crate) struct LinePost<L> {
    pub ring: Ring,
    pub own: ProxyPass,
    pub wires: Vec<L>,
    pub waiting: Vec<Waiting>,
    pub stream: StreamRoom,
    pub got: Option<Lined>,
}

impl<L: Wire> LinePost<L> {
    ghost use Rattle.sd_relay.specs.Objects.{IsDoorBefore};
    ghost use Rattle.sd_relay.specs.LinePost.{HasReadLines, IsLineReady};

    /// Reads the streams of a door, the lines that each read ended under the set that a look answers, counts each read at the desk,
    /// and keeps what that did. It takes no memory but what the ring's cache asks for.
    pub fn run<S: Door, R: Wait>(&mut self, rt: &R, hub: &ProxyHub<'_>, door: &mut S)
        requires ready { IsLineReady hub.now.cell.now hub.now.desk.now self.old }
        requires door { IsDoorBefore (S.seen door.old) }
        ensures { HasReadLines L.seen hub.now.cell.now hub.now.desk.now self.old self.new (S.seen door.old) (S.seen door.new) }
    {
        let got = line_part(
            rt,
            hub,
            &mut self.own,
            &mut self.ring,
            door,
            self.wires.as_mut_slice(),
            self.waiting.as_mut_slice(),
            &mut self.stream,
        );
        self.got = Some(got);
    }
}

/// The room of the reader of lines, where lines of streams are read.
///
/// # Errors
///
/// Where no memory is left for it.
pub(crate) fn open_line_room<L: Drop>(
    alloc: Global,
    nodes: &[Node],
    has_lines: bool,
    cache: u32,
    batch: u32,
) -> Result<Option<LineRoom<L>>, AllocError>
    requires nodes { length nodes.now ≤ 64 }
    requires cache { 0 < cache }
    ensures count { IfOk result (λ room. length (option_to_list room) ≡ (if has_lines then 1 else 0)) }
    ensures place { IfOk result (λ room. IfSome room (HasLinePlace (map node_view nodes.now))) }
    ensures clear { IfOk result (λ room. IfSome room (IsClearLine batch)) }
{
    if !has_lines {
        return Ok(None);
    }
    Ok(Some(LineRoom {
        sends: SendRoom::open(alloc, nodes, cache, batch)?,
        stream: StreamRoom::open(alloc)?,
    }))
}

/// Moves a run of wires, one for each of these nodes, and what the reader of lines has of cell and desk into a post, where there is
/// room for one.
pub(crate) fn take_line_post<L: Wire + Drop>(
    room: Option<LineRoom<L>>,
    own: Option<ProxyPass>,
    wires: &mut Vec<L>,
    nodes: &[Node],
) -> Option<LinePost<L>>
    requires own { length (option_to_list own) ≡ length (option_to_list room) }
    requires place { IfSome room (HasLinePlace (map node_view nodes.now)) }
    requires wires { length (option_to_list room) * length nodes.now ≤ length wires.old.items }
    ensures count { length (option_to_list result) ≡ length (option_to_list room) }
    ensures fitted { IfSome result (IsLineFitted (map node_view nodes.now)) }
    ensures clear { (most : ℕ) → IfSome room (IsClearLine most) → IfSome result (NoneWaitsInLine most) }
    ensures own { option_to_list own ≡ line_owns result }
    ensures wires { wires.old.items ≡ line_wires result ++ wires.new.items }
    ensures wires_room { vec_capacity wires.new ≡ vec_capacity wires.old }
{
    let LineRoom { sends, stream } = room?;
    let own = own?;
    Some(LinePost {
        ring: sends.ring,
        own,
        wires: take_run(wires, sends.wires, nodes.len()),
        waiting: sends.waiting,
        stream,
        got: None,
    })
}

/// Moves the wires of a post, if there is one, before what is left of their list, and answers what the reader of lines has of cell
/// and desk.
pub(crate) fn put_line_post<L: Wire + Drop>(
    post: Option<LinePost<L>>,
    wires: &mut Vec<L>,
) -> Option<ProxyPass>
    requires { length (line_wires post) + length wires.old.items ≤ vec_capacity wires.old }
    ensures own { option_to_list result ≡ line_owns post }
    ensures wires { wires.new.items ≡ line_wires post ++ wires.old.items }
    ensures wires_room { vec_capacity wires.new ≡ vec_capacity wires.old }
{
    let post = post?;
    put_run(wires, post.wires);
    Some(post.own)
}
