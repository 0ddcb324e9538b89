//! The rooms of a proxy's receivers, and of its reader of lines, if it has one, become posts, whose parts go back to where they stood.
ghost use Rattle.std.specs.Prelude.{◌≡◌, ◌+◌, ◌*◌, ◌<◌, ◌≤◌, [], ◌++◌, ℕ, IfOk, if◌then◌else◌, flat_map, length, map, option_to_list, vec_capacity};
ghost use Rattle.sd_plan.specs.Entries.{node_view};

use crate::line_post::{LinePost, LineRoom, open_line_room, put_line_post, take_line_post};
use crate::own_parts::OwnParts;
use crate::post::Post;
use crate::post_rooms::{PostRoom, gather, give_back, open_rooms};
use sd_outside::{Datagrams, Wire};
use sd_plan::Node;
use std::alloc::{AllocError, Global};

/// The rooms of receivers, that of the reader of lines, if there is one, and room for the receivers' posts.
#[derive(Drop)]
pub(crate) struct Postings<D, L> {
    pub rooms: Vec<PostRoom<L>>,
    pub lines: Option<LineRoom<L>>,
    pub posts: Vec<Post<D, L>>,
}

/// The posts of a proxy: those of its receivers, and that of its reader of lines, if it has one.
#[derive(Drop)]
pub(crate) struct Posts<D, L> {
    pub receivers: Vec<Post<D, L>>,
    pub lines: Option<LinePost<L>>,
}

impl<D: Drop, L: Drop> Postings<D, L> {
    ghost use Rattle.sd_relay.specs.Postings.{AreClear, ArePostingsFor};

    /// Such room for so many receivers, and for a reader of lines, where that is wanted.
    ///
    /// # Errors
    ///
    /// Where no memory is left for it.
    pub fn open(
        alloc: Global,
        nodes: &[Node],
        receivers: u16,
        has_lines: bool,
        cache: u32,
        batch: u32,
    ) -> Result<Postings<D, L>, AllocError>
        requires nodes { length nodes.now ≤ 64 }
        requires cache { 0 < cache }
        ensures postings { IfOk result (ArePostingsFor (map node_view nodes.now) receivers (if has_lines then 1 else 0)) }
        ensures clear { IfOk result (AreClear batch) }
    {
        let count = usize::from(receivers);
        Ok(Postings {
            rooms: open_rooms(alloc, nodes, count, cache, batch)?,
            lines: open_line_room(alloc, nodes, has_lines, cache, batch)?,
            posts: Vec::with_capacity(alloc, count)?,
        })
    }
}

impl<D: Datagrams + Drop, L: Wire + Drop> Postings<D, L> {
    ghost use Rattle.sd_relay.specs.LinePost.{line_owns, line_wires};
    ghost use Rattle.sd_relay.specs.PostRooms.{own_in, source_in, wires_in};
    ghost use Rattle.sd_relay.specs.Postings.{AreClear, AreFitted, ArePostingsFor, NoneWaitInPosts, SameServices};

    /// Moves the first of the sources and of the wires, and what receivers and the reader of lines have of cell and desk into posts: a
    /// source to each receiver, and a run of wires, with one for each of these nodes, to each, the reader of lines the last.
    pub fn gather(
        self,
        nodes: &[Node],
        owns: &mut OwnParts,
        packets: &mut Vec<D>,
        wires: &mut Vec<L>,
    ) -> Posts<D, L>
        requires postings { ArePostingsFor (map node_view nodes.now) (length owns.old.receivers.items) (length (option_to_list owns.old.lines)) self }
        requires packets { length owns.old.receivers.items ≤ length packets.old.items }
        requires wires { (length owns.old.receivers.items + length (option_to_list owns.old.lines)) * length nodes.now ≤ length wires.old.items }
        ensures fitted { AreFitted (map node_view nodes.now) result }
        ensures clear { (most : ℕ) → AreClear most self → NoneWaitInPosts most result }
        ensures packets { packets.old.items ≡ map source_in result.receivers.items ++ packets.new.items }
        ensures wires { wires.old.items ≡ flat_map wires_in result.receivers.items ++ (line_wires result.lines ++ wires.new.items) }
        ensures owns { owns.old.receivers.items ≡ map own_in result.receivers.items }
        ensures none { owns.new.receivers.items ≡ [] }
        ensures line_reader { option_to_list owns.old.lines ≡ line_owns result.lines }
        ensures services { SameServices owns.old owns.new }
        ensures packets_room { vec_capacity packets.new ≡ vec_capacity packets.old }
        ensures wires_room { vec_capacity wires.new ≡ vec_capacity wires.old }
        ensures owns_room { vec_capacity owns.new.receivers ≡ vec_capacity owns.old.receivers }
    {
        let Postings {
            rooms,
            lines,
            posts: mut receivers,
        } = self;
        gather(
            packets,
            wires,
            nodes,
            &mut owns.receivers,
            rooms,
            &mut receivers,
        );
        let lines = take_line_post(lines, owns.lines.take(), wires, nodes);
        Posts { receivers, lines }
    }
}

impl<D: Datagrams + Drop, L: Wire + Drop> Posts<D, L> {
    ghost use Rattle.sd_relay.specs.LinePost.{line_owns, line_wires};
    ghost use Rattle.sd_relay.specs.PostRooms.{own_in, source_in, wires_in};
    ghost use Rattle.sd_relay.specs.Postings.{SameServices};

    /// Moves sources and wires before what is left of each list, in order, and what receivers and the reader of lines have of cell and
    /// desk back to that of the others.
    pub fn give_back(self, owns: &mut OwnParts, packets: &mut Vec<D>, wires: &mut Vec<L>)
        requires none { owns.old.receivers.items ≡ [] }
        requires owns { length self.receivers.items ≤ vec_capacity owns.old.receivers }
        requires packets { length self.receivers.items + length packets.old.items ≤ vec_capacity packets.old }
        requires wires { length (flat_map wires_in self.receivers.items) + length (line_wires self.lines) + length wires.old.items ≤ vec_capacity wires.old }
        ensures packets { packets.new.items ≡ map source_in self.receivers.items ++ packets.old.items }
        ensures wires { wires.new.items ≡ flat_map wires_in self.receivers.items ++ (line_wires self.lines ++ wires.old.items) }
        ensures owns { owns.new.receivers.items ≡ map own_in self.receivers.items }
        ensures line_reader { option_to_list owns.new.lines ≡ line_owns self.lines }
        ensures services { SameServices owns.old owns.new }
    {
        let Posts { receivers, lines } = self;
        owns.lines = put_line_post(lines, wires);
        give_back(receivers, packets, wires, &mut owns.receivers);
    }
}
