ghost use Rattle.std.specs.Prelude.{◌≡◌, ◌≤◌, length, vec_len, vec_capacity, take, not, ◌==◌};
ghost use Rattle.std.specs.List.{take_while};

use crate::calls::next_call_fails;
use arrayvec::ArrayVec;
use sd_outside::{Address, Failed, Faulty, Probe, fault};
use std::alloc::{AllocError, Global};

/// How many bytes of a reply's first line are put out at most.
const MOST_LINE: usize = 1024;

/// A question of a probe: where it was asked, and whether it was answered.
#[derive(Drop)]
pub struct Question {
    pub at: Address,
    pub is_answered: bool,
}

/// A probe in memory, whose replies are given when it is made, and whose room for questions is taken then.
#[derive(Drop)]
pub struct MemProbe {
    replies: Vec<Vec<u8>>,
    taken: usize,
    questions: Vec<Question>,
    room: usize,
    /// Whether a question came for which no room was left.
    is_full: bool,
    faults: u64,
    calls: u64,
    /// The numbers of the questions that are to fail, counted from 1.
    pub fail_call: Vec<u64>,
    ghost taken_within: { taken ≤ vec_len replies },
    ghost within_room: { vec_len questions ≤ room },
    ghost room_is_taken: { room ≤ vec_capacity questions },
}

impl MemProbe {
    ghost use Rattle.std.specs.Prelude.{◌≡◌, ◌↔◌, IfOk, IsTrue, [], map};
    ghost use Rattle.sd_model_outside.specs.Outside.{Replies, fresh};
    ghost use Rattle.sd_memory.specs.MemProbe.{calls_of, left_of, asked_of, room_in};

    /// A probe that has the replies left, with room for that many questions, and of which no question is to fail.
    ///
    /// # Errors
    ///
    /// Where no memory is left for the room.
    pub fn open(replies: Vec<Vec<u8>>, asks: usize) -> Result<MemProbe, AllocError>
        ensures seen { IfOk result (λ p. ⟦<MemProbe as Faulty>⟧.seen p ≡ fresh (Replies (map (λ reply. reply.items) replies.items) [])) }
        ensures room { IfOk result (λ p. room_in p ≡ asks) }
        ensures no_calls { IfOk result (λ p. calls_of p ≡ 0) }
        ensures fails_no_call { IfOk result (λ p. p.fail_call.items ≡ []) }
    {
        let alloc = *replies.allocator();
        Ok(MemProbe {
            replies,
            taken: 0,
            questions: Vec::with_capacity(alloc, asks)?,
            room: asks,
            is_full: false,
            faults: 0,
            calls: 0,
            fail_call: Vec::new(alloc),
        })
    }

    /// The replies that it has left.
    pub fn remaining(&self) -> &[Vec<u8>]
        ensures { map (λ reply. reply.items) result.now ≡ left_of self.now }
    {
        &self.replies[self.taken..]
    }

    /// The questions that were asked, as long as there was room for them.
    pub fn questions(&self) -> &[Question]
        ensures { result.now ≡ asked_of self.now }
    {
        &self.questions
    }

    /// Whether it has no reply left.
    fn has_no_reply(&self) -> bool
        ensures { IsTrue result ↔ (length (left_of self.now) ≡ 0) }
    {
        self.taken == self.replies.len()
    }

    /// How often it failed.
    pub fn faults(&self) -> u64
        ensures { result ≡ (⟦<MemProbe as Faulty>⟧.seen self.now).faults }
    {
        self.faults
    }
}

/// The first line of a reply, cut to 1,024 bytes.
fn first_line(reply: &[u8]) -> &[u8]
    ensures line { result.now ≡ take 1024 (take_while (λ byte. not (byte == 10)) reply.now) }
    ensures size { length result.now ≤ MOST_LINE }
{
    let mut len = 0;
    while len < reply.len() && reply[len] != b'\n' {
        len += 1;
    }
    &reply[..len.min(MOST_LINE)]
}

impl Faulty for MemProbe {
    ghost use Rattle.std.proofs.Common.{arith};
    ghost use Rattle.sd_memory.specs.MemProbe.{seen_of};

    ghost seen = { seen_of };

    ghost faults_fit = { λ s. Prim.omega arith };
}

impl Probe for MemProbe {
    ghost use Rattle.std.specs.Prelude.{◌≡◌, ◌<◌, ◌↔◌, ◌⊎◌, length, OnOk, OnErr, IsErr, Contains, Some, None};
    ghost use Rattle.sd_model_outside.specs.Outside.{Unknown};
    ghost use Rattle.sd_outside.specs.Turns.{raised};
    ghost use Rattle.sd_model_outside.specs.Uses.{HasAsked, Tells};
    ghost use Rattle.sd_memory.specs.MemProbe.{Fails, calls_of, left_of, room_in, seen_of};
    ghost use Rattle.sd_outside.specs.Places.{place_of};

    fn ask(&mut self, at: &Address, out: &mut ArrayVec<u8, 1024>) -> Result<(), Failed>
        ensures ok { OnOk result (HasAsked (place_of at.now) (Some out.new.items) (seen_of self.old) (seen_of self.new)) }
        ensures content { OnOk result (Tells (place_of at.now) (Some out.new.items) (seen_of self.old).content (seen_of self.new).content) }
        ensures fails { OnErr result (Fails (place_of at.now) self.old self.new) }
        ensures out { OnErr result (out.new ≡ out.old) }
        ensures cause { IsErr result
            ↔ (Contains self.old.fail_call.items (calls_of self.new) ⊎ (room_in self.old ≡ 0) ⊎ (length (left_of self.old) ≡ 0)) }
        ensures counted { calls_of self.new ≡ raised (calls_of self.old) }
        ensures failures_stay { self.new.fail_call ≡ self.old.fail_call }
    {
        let has_no_reply = self.has_no_reply();
        let fails = next_call_fails(&mut self.calls, &self.fail_call);
        if self.questions.len() == self.room {
            self.is_full = true;
            return Err(fault(&mut self.faults));
        }
        if fails || has_no_reply {
            self.questions.push_reserved(Question {
                at: at.copied(),
                is_answered: false,
            });
            return Err(fault(&mut self.faults));
        }
        self.questions.push_reserved(Question {
            at: at.copied(),
            is_answered: true,
        });
        out.clear();
        out.try_extend_from_slice(first_line(&self.replies[self.taken]))
            .unwrap();
        self.taken += 1;
        Ok(())
    }
}
