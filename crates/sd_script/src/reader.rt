ghost use Rattle.std.specs.Prelude.{◌≡◌, ◌+◌, ◌≤◌, drop, length, min, option_map};
ghost use Rattle.sd_model_outside.specs.Outside.{last_count};
ghost use Rattle.sd_model_replay.specs.Script.{body_of};
ghost use Rattle.sd_script.specs.Ahead.{held_in};
ghost use Rattle.sd_script.specs.Found.{size_of};
ghost use Rattle.sd_script.specs.Head.{head_of, item_of};

use crate::ahead::Ahead;
use crate::flaw::Flaw;
use crate::head::Head;
use crate::record::{Found, next_record};
use sd_outside::{Failed, Source};
use std::alloc::{AllocError, Global};
use std::marker::Model;

/// What stands next in a script.
#[derive(Clone, Copy, Debug, PartialEq, Eq)]
pub enum Item {
    /// A receiver got a datagram at a moment. `Reader::body` lends the datagram.
    Packet { who: u16, moment: u64 },
    /// A flush at a Unix second.
    Flush { ts: u64 },
    /// The line of an admin command came at a moment. `Reader::body` lends the line.
    Admin { moment: u64 },
    /// The word that ends the script.
    End,
    /// A record that has a flaw, with the first one that it has.
    Fault(Flaw),
}

/// Reads the records of a script in room that was taken when it was opened.
#[derive(Drop)]
pub struct Reader {
    receivers: u16,
    ahead: Ahead,
    at: u64,
    body: Option<usize>,
}

/// What is answered once the record of a first line was read.
fn item_of(head: Head) -> Item
    ensures { result ≡ item_of head }
{
    match head {
        Head::Packet { who, moment, .. } => Item::Packet { who, moment },
        Head::Flush { ts } => Item::Flush { ts },
        Head::Admin { moment, .. } => Item::Admin { moment },
        Head::End => Item::End,
    }
}

/// Lets the first line of a record go, and counts the record, up to 2^64 - 1. Answers how many bytes its body has, if it
/// has one, which stays ahead.
fn pass(ahead: &mut Ahead, at: &mut u64, found: Found) -> Option<usize>
    requires { found.line ≤ length (held_in ahead.old) }
    ensures held { held_in ahead.new ≡ drop found.line (held_in ahead.old) }
    ensures body { result ≡ option_map (λ b. b.len) (body_of (head_of found.head)) }
    ensures at { at.new ≡ min (at.old + size_of found) last_count }
{
    ahead.take(found.line);
    *at = at.saturating_add(found.line as u64);
    let body = found.head.body()?;
    *at = at.saturating_add(body.len as u64).saturating_add(1);
    Some(body.len)
}

impl Model for Reader {
    ghost use Rattle.sd_script.specs.Reading.{Reading};

    ghost Value = { Reading };

    ghost use Rattle.sd_script.specs.Reader.{reading_of, IsReader};

    ghost view = { reading_of };

    ghost invariant = { IsReader };
}

impl Reader {
    ghost use Rattle.std.specs.Prelude.{◌≡◌, ◌≤◌, [], IfOk, OnOk, OnErr};
    ghost use Rattle.sd_model_outside.specs.Outside.{Rose, Used};
    ghost use Rattle.sd_model_replay.specs.Script.{IsUndecided};
    ghost use Rattle.sd_script.specs.Reads.{ReadsItem, Stays};

    /// A reader that has read nothing yet, of the datagrams of so many receivers, which are counted from 0.
    ///
    /// # Errors
    ///
    /// Where no memory is left for the room.
    pub fn open(alloc: Global, receivers: u16) -> Result<Reader, AllocError>
        ensures { IfOk result (λ r. r ≡ record { receivers = receivers; at = 0; body = []; pending = [] }) }
    {
        Ok(Reader {
            receivers,
            ahead: Ahead::open(alloc)?,
            at: 0,
            body: None,
        })
    }

    /// How many bytes stood before what stands next, up to 2^64 - 1.
    pub fn at(&self) -> u64
        ensures { result ≡ (self.now).at }
    {
        self.at
    }

    /// The bytes behind the first line, where the last answer of `next` was a packet or an admin line, and else no byte.
    pub fn body(&self) -> &[u8]
        ensures { result.now ≡ (self.now).body }
    {
        match self.body {
            Some(len) => &self.ahead.bytes()[..len],
            None => &[],
        }
    }

    /// Reads what stands next. The source is asked only while the bytes at hand don't decide what it is: the
    /// first line up to its newline, to 40 bytes or to the end, and for a record with a body then the body and the byte
    /// behind it. After `Fault` and after an error it may be asked again.
    ///
    /// # Errors
    ///
    /// `Failed` where the source failed. Then nothing was read.
    pub fn next<R: Source>(&mut self, script: &mut R) -> Result<Item, Failed>
        ensures item { IfOk result
            (λ item. ReadsItem item self.old (R.seen script.old).content self.new (R.seen script.new).content) }
        ensures failed { OnErr result (Rose (R.seen script.old).faults (R.seen script.new).faults) }
        ensures steady { OnOk result ((R.seen script.new).faults ≡ (R.seen script.old).faults) }
        ensures stays { OnErr result (Stays self.old (R.seen script.old).content self.new (R.seen script.new).content) }
        ensures asked { OnErr result (IsUndecided self.old.receivers self.new.pending) }
        ensures used { Used (R.seen script.old) (R.seen script.new) }
    {
        if let Some(len) = self.body {
            self.ahead.take(len + 1);
            self.body = None;
        }
        let found = match next_record(&mut self.ahead, script, self.receivers)? {
            Ok(found) => found,
            Err(flaw) => return Ok(Item::Fault(flaw)),
        };
        self.body = pass(&mut self.ahead, &mut self.at, found);
        Ok(item_of(found.head))
    }
}
