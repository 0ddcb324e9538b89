//! The lines of a datagram that wait to go to one node in one packet.
ghost use Rattle.std.specs.Prelude.{◌≡◌, ◌+◌, ◌<◌, ◌≤◌, ◌∷◌, ◌++◌, ℕ, List, [], All, IfOk, length, take, true, nat_le};
ghost use Rattle.sd_model_proxy.specs.Routes.{joined};

use crate::sending::send_packet;
use sd_outside::Wire;
use sd_proxy_desk::ProxyTotals;
use std::alloc::{AllocError, Global};

/// The lines of one datagram that wait to go to one node in one packet, in room that was taken before.
#[derive(Drop)]
pub struct Waiting {
    // Each line, with a newline behind it.
    room: Vec<u8>,
    len: usize,
    lines: u64,
    ghost newline: { 0 < length room.items },
    ghost within: { len ≤ length room.items },
    ghost few: { lines ≤ len },
}

/// Writes a line, and a newline behind it.
fn put_line(room: &mut [u8], at: usize, line: &[u8])
    requires { at + length line.now < length room.old }
    ensures len { length room.new ≡ length room.old }
    ensures text { take (at + length line.now + 1) room.new ≡ take at room.old ++ (line.now ++ 10 ∷ []) }
{
    let end = at + line.len();
    room[at..end].copy_from_slice(line);
    room[end] = b'\n';
}

impl Waiting {
    ghost use Rattle.sd_proxy_desk.specs.Views.{totals_view};
    ghost use Rattle.sd_proxy.specs.Waiting.{Holds, TakesLine, under_way};
    ghost use Rattle.sd_proxy.specs.Sending.{Sends};

    /// Room for a packet of at most so many bytes to each of so many nodes, in which no line waits.
    ///
    /// # Errors
    ///
    /// Where no memory is left for it.
    pub fn for_nodes(alloc: Global, nodes: usize, most: u32) -> Result<Vec<Waiting>, AllocError>
        ensures count { IfOk result (λ waiting. length waiting.items ≡ nodes) }
        ensures each { IfOk result (λ waiting. All (Holds most []) waiting.items) }
    {
        let mut waiting = Vec::with_capacity(alloc, nodes)?;
        for _ in 0..nodes {
            waiting.push_reserved(Waiting::open(alloc, most)?);
        }
        Ok(waiting)
    }

    /// Room for a packet of at most so many bytes, in which no line waits.
    fn open(alloc: Global, most: u32) -> Result<Waiting, AllocError>
        ensures { IfOk result (Holds most []) }
    {
        let most = usize::try_from(most).unwrap();
        Ok(Waiting {
            room: vec![in alloc; 0; most + 1]?,
            len: 0,
            lines: 0,
        })
    }

    /// Whether a line has room behind those that wait.
    fn has_room(&self, line: &[u8]) -> bool
        ensures room { result ≡ true → self.now.len + length line.now < length self.now.room.items }
        ensures fits { (most : ℕ) (begun : List (List ℕ)) → Holds most begun self.now → result ≡ nat_le (length (joined (begun ++ line.now ∷ []))) most }
    {
        line.len() < self.room.len() && self.len < self.room.len() - line.len()
    }

    /// Has a line wait behind the others.
    fn push(&mut self, line: &[u8])
        requires { self.old.len + length line.now < length self.old.room.items }
        ensures { (most : ℕ) (begun : List (List ℕ)) → Holds most begun self.old → Holds most (begun ++ line.now ∷ []) self.new }
    {
        put_line(&mut self.room, self.len, line);
        self.len += line.len() + 1;
        self.lines += 1;
    }

    /// Sends the lines that wait, if any, in one packet, and counts them. Then no line waits.
    pub(crate) fn send<L: Wire>(&mut self, wire: &mut L, totals: &mut ProxyTotals)
        ensures sends { (most : ℕ) (begun : List (List ℕ)) → Holds most begun self.old
            → Sends (under_way begun) (L.seen wire.old) (L.seen wire.new) (totals_view totals.old) (totals_view totals.new) }
        ensures none { (most : ℕ) (begun : List (List ℕ)) → Holds most begun self.old → Holds most [] self.new }
    {
        if self.lines == 0 {
            return;
        }
        send_packet(&self.room[..self.len - 1], self.lines, wire, totals);
        self.len = 0;
        self.lines = 0;
    }

    /// Has a line wait where it has room behind the others. Else these are sent, and it waits alone, or is sent too, where it has no
    /// room alone.
    pub(crate) fn take<L: Wire>(&mut self, line: &[u8], wire: &mut L, totals: &mut ProxyTotals)
        ensures { (most : ℕ) (begun : List (List ℕ)) → Holds most begun self.old
            → TakesLine most begun line.now (L.seen wire.old) (L.seen wire.new) (totals_view totals.old) (totals_view totals.new) self.new }
    {
        if self.has_room(line) {
            self.push(line);
            return;
        }
        self.send(wire, totals);
        if self.has_room(line) {
            self.push(line);
        } else {
            send_packet(line, 1, wire, totals);
        }
    }
}
