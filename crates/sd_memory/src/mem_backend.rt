ghost use Rattle.std.specs.Prelude.{◌<◌};

use crate::calls::next_call_fails;
use crate::mem_object::{Content, MemObject};
use crate::round_store::RoundStore;
use sd_outside::{Backend, Failed, Faulty, Sink, fault};
use std::alloc::{AllocError, Global};

/// The lists that a backend in memory was given.
#[derive(Drop)]
pub struct ListsGiven {
    store: RoundStore,
    begins: u64,
    finishes: u64,
    /// The numbers of the calls of `begin` that are to fail, counted from 1.
    pub fail_begin: Vec<u64>,
    /// The numbers of the calls of `finish` that are to fail, counted from 1.
    pub fail_finish: Vec<u64>,
    /// How many bytes a write takes at most. Not 0.
    pub most: usize,
    ghost some_at_most: { 0 < most },
}

impl Content for ListsGiven {
    ghost use Rattle.sd_memory.specs.MemBackend.{bare};

    ghost bare = { bare };
}

/// A backend in memory, whose room is taken when it is made.
pub type MemBackend = MemObject<ListsGiven>;

impl MemBackend {
    ghost use Rattle.std.specs.Prelude.{◌≡◌, ◌<◌, min, length, IfOk, None, Some, [], slice_get};
    ghost use Rattle.std.specs.Option.{option_map};
    ghost use Rattle.sd_model_outside.specs.Outside.{Rounds, fresh};
    ghost use Rattle.sd_memory.specs.MemBackend.{HasNoRoom, Calls, byte_room_in, calls_of, list_room_in, lists_in};
    ghost use Rattle.sd_memory.specs.MemObject.{content_of};

    /// A backend with no list, and room for that many bytes in all its lists together and for that many
    /// lists, of which no call is to fail, and whose writes take as much as they can.
    ///
    /// # Errors
    ///
    /// Where no memory is left for the room.
    pub fn open(alloc: Global, bytes: usize, rounds: usize) -> Result<MemBackend, AllocError>
        ensures seen { IfOk result (λ b. ⟦<MemBackend as Faulty>⟧.seen b ≡ fresh (Rounds [] None)) }
        ensures byte_room { IfOk result (λ b. byte_room_in b ≡ bytes) }
        ensures list_room { IfOk result (λ b. list_room_in b ≡ rounds) }
        ensures no_calls { IfOk result
            (λ b. calls_of b ≡ record { openings = 0; writes = 0; begins = 0; finishes = 0 }) }
        ensures fails_no_opening { IfOk result (λ b. b.fail_open.items ≡ []) }
        ensures fails_no_write { IfOk result (λ b. b.fail_call.items ≡ []) }
        ensures fails_no_begin { IfOk result (λ b. (content_of b).fail_begin.items ≡ []) }
        ensures fails_no_finish { IfOk result (λ b. (content_of b).fail_finish.items ≡ []) }
        ensures most { IfOk result (λ b. (content_of b).most ≡ usize.MAX) }
    {
        let store = RoundStore::open(alloc, bytes, rounds)?;
        Ok(MemObject::around(
            alloc,
            ListsGiven {
                store,
                begins: 0,
                finishes: 0,
                fail_begin: Vec::new(alloc),
                fail_finish: Vec::new(alloc),
                most: usize::MAX,
            },
        ))
    }

    /// How many lists it was given, with the one that is open.
    pub fn lists(&self) -> usize
        ensures { result ≡ length (lists_in self.now) }
    {
        self.content.store.len()
    }

    /// The bytes of the list at that place, counted from 0.
    pub fn list(&self, place: usize) -> &[u8]
        requires { place < length (lists_in self.now) }
        ensures { option_map (λ round. round.bytes) (slice_get (lists_in self.now) place) ≡ Some result.now }
    {
        self.content.store.list(place)
    }

    /// Whether the list at that place was ended.
    pub fn is_ended(&self, place: usize) -> bool
        requires { place < length (lists_in self.now) }
        ensures { option_map (λ round. round.is_ended) (slice_get (lists_in self.now) place) ≡ Some result }
    {
        self.content.store.is_ended(place)
    }

    /// How many bytes a write takes, or none where it needs a list for which there is no room.
    fn fitting(&self, len: usize) -> usize
        ensures no_room { HasNoRoom self.now → result ≡ 0 }
        ensures room { ¬ (HasNoRoom self.now) → result ≡ min (min len (content_of self.now).most) (byte_room_in self.now) }
    {
        if self.content.store.is_open() || self.content.store.has_list_room() {
            len.min(self.content.most)
                .min(self.content.store.byte_room())
        } else {
            0
        }
    }
}

impl Sink for MemBackend {
    ghost use Rattle.std.specs.Prelude.{◌≡◌, ◌<◌, ◌⊎◌, ◌↔◌, length, IfOk, OnErr, IsErr, Contains};
    ghost use Rattle.sd_outside.specs.Turns.{raised};
    ghost use Rattle.sd_memory.specs.MemBackend.{Calls, Takes, Fails, HasNoRoom, SameChoices, calls_of};

    fn write(&mut self, bytes: &[u8]) -> Result<usize, Failed>
        requires { 0 < length bytes.now }
        ensures takes { IfOk result (Takes self.old self.new bytes.now) }
        ensures fails { OnErr result (Fails self.old self.new) }
        ensures cause { IsErr result
            ↔ (Contains self.old.fail_call.items (calls_of self.new).writes ⊎ HasNoRoom self.old) }
        ensures counted { calls_of self.new
            ≡ record (calls_of self.old) { writes = raised (calls_of self.old).writes } }
        ensures choices_stay { SameChoices self.old self.new }
    {
        let count = self.fitting(bytes.len());
        if next_call_fails(&mut self.calls, &self.fail_call) || count == 0 {
            return Err(fault(&mut self.faults));
        }
        self.content.store.append(&bytes[..count]);
        Ok(count)
    }

    ghost number_fits = { λ _. tt };
}

impl Backend for MemBackend {
    ghost use Rattle.std.specs.Prelude.{◌≡◌, ◌⊎◌, ◌↔◌, OnOk, OnErr, IsErr, Contains};
    ghost use Rattle.sd_outside.specs.Turns.{raised};
    ghost use Rattle.sd_memory.specs.MemBackend.{Begins, Calls, Fails, Finishes, SameChoices, calls_of, list_room_in};
    ghost use Rattle.sd_memory.specs.MemObject.{content_of};

    fn begin(&mut self) -> Result<(), Failed>
        ensures begins { OnOk result (Begins self.old self.new) }
        ensures fails { OnErr result (Fails self.old self.new) }
        ensures cause { IsErr result
            ↔ (Contains (content_of self.old).fail_begin.items (calls_of self.new).begins ⊎ (list_room_in self.old ≡ 0)) }
        ensures counted { calls_of self.new
            ≡ record (calls_of self.old) { begins = raised (calls_of self.old).begins } }
        ensures choices_stay { SameChoices self.old self.new }
    {
        if next_call_fails(&mut self.content.begins, &self.content.fail_begin)
            || !self.content.store.has_list_room()
        {
            return Err(fault(&mut self.faults));
        }
        self.content.store.begin();
        Ok(())
    }

    fn finish(&mut self) -> Result<(), Failed>
        ensures finishes { OnOk result (Finishes self.old self.new) }
        ensures fails { OnErr result (Fails self.old self.new) }
        ensures cause { IsErr result ↔ Contains (content_of self.old).fail_finish.items (calls_of self.new).finishes }
        ensures counted { calls_of self.new
            ≡ record (calls_of self.old) { finishes = raised (calls_of self.old).finishes } }
        ensures choices_stay { SameChoices self.old self.new }
    {
        if next_call_fails(&mut self.content.finishes, &self.content.fail_finish) {
            return Err(fault(&mut self.faults));
        }
        self.content.store.finish();
        Ok(())
    }
}
