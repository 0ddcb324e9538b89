ghost use Rattle.std.specs.Prelude.{◌+◌, ◌≤◌, All, vec_len, vec_capacity};
ghost use Rattle.sd_memory.specs.MemSessions.{HasNoFaults, number_out};

use crate::calls::next_call_fails;
use crate::mem_object::{Content, MemObject};
use crate::mem_sink::MemSink;
use crate::mem_source::MemSource;
use sd_outside::{Door, Entry, Faulty, fault};
use std::alloc::AllocError;

/// The sessions of a door in memory.
#[derive(Drop)]
pub struct DoorSessions {
    left: Vec<(MemSource, MemSink)>,
    back: Vec<(MemSource, MemSink)>,
    is_out: bool,
    turns: u64,
    ghost room: { vec_len left + (number_out is_out + vec_len back) ≤ vec_capacity back },
    ghost fresh: { All HasNoFaults left.items },
}

impl Content for DoorSessions {
    ghost use Rattle.sd_memory.specs.MemDoor.{bare};

    ghost bare = { bare };
}

/// A door in memory, whose sessions are given when it is made.
pub type MemDoor = MemObject<DoorSessions>;

impl MemDoor {
    ghost use Rattle.std.specs.Prelude.{◌≡◌, All, IfOk, [], map};
    ghost use Rattle.sd_model_outside.specs.Outside.{Sessions, fresh};
    ghost use Rattle.sd_memory.specs.MemDoor.{back_of, left_of};
    ghost use Rattle.sd_memory.specs.MemObject.{Calls, calls_of};
    ghost use Rattle.sd_memory.specs.MemSessions.{HasNoFaults, session_in};

    /// A door that has the sessions left, whose ends have no faults yet, with room for all of them to be given back, and of
    /// which no call is to fail.
    ///
    /// # Errors
    ///
    /// Where no memory is left for the room.
    pub fn open(sessions: Vec<(MemSource, MemSink)>) -> Result<MemDoor, AllocError>
        requires { All HasNoFaults sessions.items }
        ensures seen { IfOk result (λ d. ⟦<MemDoor as Faulty>⟧.seen d ≡ fresh (Sessions (map session_in sessions.items) [])) }
        ensures no_calls { IfOk result (λ d. calls_of d ≡ record { openings = 0; calls = 0 }) }
        ensures fails_no_opening { IfOk result (λ d. d.fail_open.items ≡ []) }
        ensures fails_no_call { IfOk result (λ d. d.fail_call.items ≡ []) }
    {
        let alloc = *sessions.allocator();
        let back = Vec::with_capacity(alloc, sessions.len())?;
        Ok(MemObject::around(
            alloc,
            DoorSessions {
                left: sessions,
                back,
                is_out: false,
                turns: 0,
            },
        ))
    }

    /// The sessions that it has left.
    pub fn remaining(&self) -> &[(MemSource, MemSink)]
        ensures { map session_in result.now ≡ left_of self.now }
    {
        &self.content.left
    }

    /// The sessions that were given back.
    pub fn back(&self) -> &[(MemSource, MemSink)]
        ensures { map session_in result.now ≡ back_of self.now }
    {
        &self.content.back
    }

    /// How many turns it took.
    pub fn turns(&self) -> u64
        ensures { result ≡ (⟦<MemDoor as Faulty>⟧.seen self.now).turns }
    {
        self.content.turns
    }

    /// Whether a session is out.
    pub fn is_out(&self) -> bool
        ensures { result ≡ (⟦<MemDoor as Faulty>⟧.seen self.now).is_out }
    {
        self.content.is_out
    }
}

impl Door for MemDoor {
    type Asking = MemSource;

    type Telling = MemSink;

    ghost use Rattle.std.specs.Prelude.{◌≡◌, true, false};
    ghost use Rattle.std.proofs.Common.{arith};
    ghost use Rattle.sd_outside.specs.Turns.{raised};
    ghost use Rattle.sd_outside.specs.Turns.{GivesSession, HasLeft, turned};
    ghost use Rattle.sd_outside.specs.Answers.{Fails, HasEnded, MatchEntry};
    ghost use Rattle.sd_memory.specs.MemDoor.{IsRaisedFor, left_of, seen_of};
    ghost use Rattle.sd_memory.specs.MemObject.{Calls, IsToFail, SameFailures, calls_of};
    ghost use Rattle.sd_memory.specs.MemSource.{seen_of as source_seen};
    ghost use Rattle.sd_memory.specs.MemSink.{seen_of as sink_seen};

    fn next_session(&mut self) -> Entry<MemSource, MemSink>
        requires { (seen_of self.old).is_out ≡ false }
        ensures answer { MatchEntry result
            (λ asking telling. GivesSession (source_seen asking) (sink_seen telling) (seen_of self.old) (seen_of self.new))
            (HasEnded (left_of self.old) (seen_of self.old) (seen_of self.new))
            ⊥
            (Fails (turned (seen_of self.old)) (seen_of self.new)) }
        ensures cause { MatchEntry result
            (λ asking telling. ¬ IsToFail self.old self.new)
            (¬ IsToFail self.old self.new)
            ⊥
            (IsToFail self.old self.new) }
        ensures counted { calls_of self.new
            ≡ record (calls_of self.old) { calls = raised (calls_of self.old).calls } }
        ensures failures_stay { SameFailures self.old self.new }
    {
        if next_call_fails(&mut self.calls, &self.fail_call) {
            fault(&mut self.faults);
            self.content.turns = self.content.turns.saturating_add(1);
            return Entry::Failed;
        }
        if self.content.left.is_empty() {
            return Entry::End;
        }
        let (asking, telling) = self.content.left.remove(0);
        self.content.is_out = true;
        self.content.turns = self.content.turns.saturating_add(1);
        Entry::Session(asking, telling)
    }

    fn leave(&mut self, asking: MemSource, telling: MemSink)
        requires { (seen_of self.old).is_out ≡ true }
        ensures left { HasLeft (source_seen asking) (sink_seen telling) (seen_of self.old) (seen_of self.new) }
        ensures faults { IsRaisedFor (source_seen asking) (sink_seen telling) (seen_of self.old) (seen_of self.new) }
        ensures no_call { calls_of self.new ≡ calls_of self.old }
        ensures failures_stay { SameFailures self.old self.new }
    {
        if asking.faults() > 0 || telling.faults() > 0 {
            fault(&mut self.faults);
        }
        let sessions = &mut self.content;
        sessions.back.push_reserved((asking, telling));
        sessions.is_out = false;
    }

    ghost turns_fit = { λ s. Prim.omega arith };
}
