ghost use Rattle.std.specs.Prelude.{IsNone};
ghost use Rattle.sd_memory.specs.RoundStore.{open_in};

use crate::calls::next_call_fails;
use crate::mem_object::{Content, MemObject};
use crate::round_store::RoundStore;
use sd_outside::{Failed, Faulty, Wire, fault};
use std::alloc::{AllocError, Global};

/// The packets that were sent on a wire in memory.
#[derive(Drop)]
pub struct PacketsSent {
    store: RoundStore,
    ghost none_open: { IsNone (open_in store) },
}

impl Content for PacketsSent {
    ghost use Rattle.sd_memory.specs.MemWire.{bare};

    ghost bare = { bare };
}

/// A wire in memory, whose room is taken when it is made.
pub type MemWire = MemObject<PacketsSent>;

impl MemWire {
    ghost use Rattle.std.specs.Prelude.{◌≡◌, ◌<◌, ◌≤◌, ◌↔◌, length, IfOk, IsTrue, None, Some, [], slice_get};
    ghost use Rattle.sd_model_outside.specs.Outside.{Packets, fresh};
    ghost use Rattle.sd_memory.specs.MemObject.{Calls, calls_of};
    ghost use Rattle.sd_memory.specs.MemWire.{HasNoRoomFor, byte_room_in, packet_room_in, packets_in};

    /// A wire on which nothing was sent, with room for that many bytes in all packets together and for that many
    /// packets, of which no call is to fail.
    ///
    /// # Errors
    ///
    /// Where no memory is left for the room.
    pub fn open(alloc: Global, bytes: usize, packets: usize) -> Result<MemWire, AllocError>
        ensures seen { IfOk result (λ w. ⟦<MemWire as Faulty>⟧.seen w ≡ fresh (Packets [])) }
        ensures byte_room { IfOk result (λ w. byte_room_in w ≡ bytes) }
        ensures packet_room { IfOk result (λ w. packet_room_in w ≡ packets) }
        ensures no_calls { IfOk result (λ w. calls_of w ≡ record { openings = 0; calls = 0 }) }
        ensures fails_no_opening { IfOk result (λ w. w.fail_open.items ≡ []) }
        ensures fails_no_send { IfOk result (λ w. w.fail_call.items ≡ []) }
    {
        let store = RoundStore::open(alloc, bytes, packets)?;
        Ok(MemObject::around(alloc, PacketsSent { store }))
    }

    /// How many packets were sent.
    pub fn packets(&self) -> usize
        ensures { result ≡ length (packets_in self.now) }
    {
        self.content.store.len()
    }

    /// The packet at that place, counted from 0.
    pub fn packet(&self, place: usize) -> &[u8]
        requires { place < length (packets_in self.now) }
        ensures { slice_get (packets_in self.now) place ≡ Some result.now }
    {
        self.content.store.list(place)
    }

    /// Whether it has no room for a packet of that many bytes.
    fn has_no_room_for(&self, len: usize) -> bool
        ensures { IsTrue result ↔ HasNoRoomFor self.now len }
    {
        self.content.store.byte_room() < len || !self.content.store.has_list_room()
    }
}

impl Wire for MemWire {
    ghost use Rattle.std.specs.Prelude.{◌≡◌, ◌⊎◌, ◌↔◌, length, OnOk, OnErr, IsErr};
    ghost use Rattle.sd_outside.specs.Turns.{raised};
    ghost use Rattle.sd_memory.specs.MemObject.{Calls, IsToFail, SameFailures, calls_of};
    ghost use Rattle.sd_memory.specs.MemWire.{Fails, HasNoRoomFor, Sends};

    fn send(&mut self, packet: &[u8]) -> Result<(), Failed>
        ensures sends { OnOk result (Sends self.old self.new packet.now) }
        ensures fails { OnErr result (Fails self.old self.new) }
        ensures cause { IsErr result
            ↔ (IsToFail self.old self.new ⊎ HasNoRoomFor self.old (length packet.now)) }
        ensures counted { calls_of self.new
            ≡ record (calls_of self.old) { calls = raised (calls_of self.old).calls } }
        ensures failures_stay { SameFailures self.old self.new }
    {
        let has_no_room = self.has_no_room_for(packet.len());
        if next_call_fails(&mut self.calls, &self.fail_call) || has_no_room {
            return Err(fault(&mut self.faults));
        }
        self.content.store.add(packet);
        Ok(())
    }
}
