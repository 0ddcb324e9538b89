ghost use Rattle.std.specs.Prelude.{◌≡◌, ◌≤◌, vec_len, IfOk};
ghost use Rattle.sd_script.specs.declared.ahead.TheConstants.{ROOM};

use crate::fields::first_place;
use crate::head::LONGEST;
use sd_outside::{Failed, Source};
use std::alloc::{AllocError, Global};

/// The newline of a record's line stands among this many bytes.
pub(crate) const LINE: usize = 40;

/// No record has more bytes.
const RECORD: usize = LINE + LONGEST + 1;

/// Room for two of the longest records, so that bytes are seldom moved to its start.
const ROOM: usize = 2 * RECORD;

/// Bytes that were read ahead of what is asked for, in room that is taken once.
#[derive(Drop)]
pub(crate) struct Ahead {
    room: Vec<u8>,
    start: usize,
    end: usize,
    ghost full: { vec_len room ≡ ROOM },
    ghost ordered: { start ≤ end },
    ghost inside: { end ≤ ROOM },
}

/// That many bytes, all 0.
fn zeros(alloc: Global, len: usize) -> Result<Vec<u8>, AllocError>
    ensures { IfOk result (λ v. vec_len v ≡ len) }
{
    Vec::from_elem(alloc, 0, len)
}

impl Ahead {
    ghost use Rattle.std.specs.Prelude.{◌≡◌, ◌⊎◌, ◌<◌, ◌≤◌, [], drop, length, take, IfOk, OnOk, OnErr, MatchBool, MatchOption, IfNone};
    ghost use Rattle.std.specs.Bool.{OnFalse};
    ghost use Rattle.sd_model_outside.specs.Outside.{Rose, IsAtEnd, Used, put_back};
    ghost use Rattle.sd_script.specs.Fields.{Lacks, IsFirstPlace};
    ghost use Rattle.sd_script.specs.Ahead.{held_in, Grows, GrowsBy};
    ghost use Rattle.sd_script.specs.Flaws.{IsPartOfLine};

    /// Takes the room, which holds no bytes yet.
    ///
    /// # Errors
    ///
    /// Where no memory is left for the room.
    pub(crate) fn open(alloc: Global) -> Result<Ahead, AllocError>
        ensures { IfOk result (λ a. held_in a ≡ []) }
    {
        Ok(Ahead {
            room: zeros(alloc, ROOM)?,
            start: 0,
            end: 0,
        })
    }

    /// The bytes that it holds.
    pub(crate) fn bytes(&self) -> &[u8]
        ensures { result.now ≡ held_in self.now }
    {
        &self.room[self.start..self.end]
    }

    /// Lets bytes at the start go.
    pub(crate) fn take(&mut self, count: usize)
        requires { count ≤ length (held_in self.old) }
        ensures { held_in self.new ≡ drop count (held_in self.old) }
    {
        self.start += count;
    }

    /// Moves the bytes to the start of the room.
    fn move_to_start(&mut self)
        ensures bytes { held_in self.new ≡ held_in self.old }
        ensures prefix { self.new.start ≡ 0 }
    {
        self.room.copy_within(self.start..self.end, 0);
        self.end -= self.start;
        self.start = 0;
    }

    /// Asks the source once for what follows the bytes, and answers how many came. 0 is the end.
    fn ask<R: Source>(&mut self, script: &mut R) -> Result<usize, Failed>
        requires { self.old.end < ROOM }
        ensures grows { IfOk result (λ n. GrowsBy n (held_in self.old) (held_in self.new)) }
        ensures left_stays { put_back (held_in self.new) (R.seen script.new).content
            ≡ put_back (held_in self.old) (R.seen script.old).content }
        ensures end { IfOk result (λ n. n ≡ 0 → IsAtEnd (R.seen script.new).content) }
        ensures kept { OnErr result (held_in self.new ≡ held_in self.old) }
        ensures failed { OnErr result (Rose (R.seen script.old).faults (R.seen script.new).faults) }
        ensures steady { OnOk result ((R.seen script.new).faults ≡ (R.seen script.old).faults) }
        ensures used { Used (R.seen script.old) (R.seen script.new) }
    {
        let count = script.read(&mut self.room[self.end..])?;
        self.end += count;
        Ok(count)
    }

    /// The same, where that many bytes in all are needed, for which room is made at the end.
    fn read<R: Source>(&mut self, script: &mut R, need: usize) -> Result<usize, Failed>
        requires more { length (held_in self.old) < need }
        requires room { need ≤ ROOM }
        ensures grows { IfOk result (λ n. GrowsBy n (held_in self.old) (held_in self.new)) }
        ensures left_stays { put_back (held_in self.new) (R.seen script.new).content
            ≡ put_back (held_in self.old) (R.seen script.old).content }
        ensures end { IfOk result (λ n. n ≡ 0 → IsAtEnd (R.seen script.new).content) }
        ensures kept { OnErr result (held_in self.new ≡ held_in self.old) }
        ensures failed { OnErr result (Rose (R.seen script.old).faults (R.seen script.new).faults) }
        ensures steady { OnOk result ((R.seen script.new).faults ≡ (R.seen script.old).faults) }
        ensures used { Used (R.seen script.old) (R.seen script.new) }
    {
        if ROOM - self.start < need {
            self.move_to_start();
        }
        self.ask(script)
    }

    /// Reads until that many bytes are held or the source is at its end. Answers whether they are held.
    pub(crate) fn hold<R: Source>(&mut self, script: &mut R, need: usize) -> Result<bool, Failed>
        requires { need ≤ ROOM }
        ensures held { IfOk result (λ b. MatchBool b (need ≤ length (held_in self.new)) (length (held_in self.new) < need)) }
        ensures end { IfOk result (λ b. OnFalse b (IsAtEnd (R.seen script.new).content)) }
        ensures asked { OnErr result (length (held_in self.new) < need) }
        ensures grows { Grows (held_in self.old) (held_in self.new) }
        ensures left_stays { put_back (held_in self.new) (R.seen script.new).content
            ≡ put_back (held_in self.old) (R.seen script.old).content }
        ensures failed { OnErr result (Rose (R.seen script.old).faults (R.seen script.new).faults) }
        ensures steady { OnOk result ((R.seen script.new).faults ≡ (R.seen script.old).faults) }
        ensures used { Used (R.seen script.old) (R.seen script.new) }
    {
        while self.bytes().len() < need {
            if self.read(script, need)? == 0 {
                return Ok(false);
            }
        }
        Ok(true)
    }

    /// Reads until a newline stands among the first bytes, or until they are as many as no line has, or until
    /// the source is at its end. Answers the newline's place, where there is one.
    pub(crate) fn hold_line<R: Source>(&mut self, script: &mut R) -> Result<Option<usize>, Failed>
        ensures line { IfOk result (λ place. MatchOption place
            (Lacks 10 (take LINE (held_in self.new)))
            (IsFirstPlace 10 (take LINE (held_in self.new)))) }
        ensures end { IfOk result (λ place. IfNone place
            ((LINE ≤ length (held_in self.new)) ⊎ IsAtEnd (R.seen script.new).content)) }
        ensures asked { OnErr result (IsPartOfLine (held_in self.new)) }
        ensures left_stays { put_back (held_in self.new) (R.seen script.new).content
            ≡ put_back (held_in self.old) (R.seen script.old).content }
        ensures failed { OnErr result (Rose (R.seen script.old).faults (R.seen script.new).faults) }
        ensures steady { OnOk result ((R.seen script.new).faults ≡ (R.seen script.old).faults) }
        ensures used { Used (R.seen script.old) (R.seen script.new) }
    {
        loop {
            let bytes = self.bytes();
            let prefix = &bytes[..LINE.min(bytes.len())];
            if let Some(place) = first_place(prefix, b'\n') {
                return Ok(Some(place));
            }
            if prefix.len() == LINE {
                return Ok(None);
            }
            if self.read(script, LINE)? == 0 {
                return Ok(None);
            }
        }
    }
}
