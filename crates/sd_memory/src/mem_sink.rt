ghost use Rattle.std.specs.Prelude.{◌<◌};

use crate::byte_store::ByteStore;
use crate::calls::next_call_fails;
use sd_outside::{Failed, Faulty, Sink, fault};
use std::alloc::{AllocError, Global};

/// A sink in memory, whose room is taken when it is made.
#[derive(Drop)]
pub struct MemSink {
    store: ByteStore,
    faults: u64,
    writes: u64,
    /// The numbers of the writes that are to fail, counted from 1.
    pub fail_call: Vec<u64>,
    /// How many bytes a write takes at most. Not 0.
    pub most: usize,
    ghost some_at_most: { 0 < most },
}

impl MemSink {
    ghost use Rattle.std.specs.Prelude.{◌≡◌, None, [], IfOk};
    ghost use Rattle.sd_model_outside.specs.Outside.{Bytes, fresh};
    ghost use Rattle.sd_memory.specs.MemSink.{room_in, writes_of};

    /// An empty sink with room for that many bytes, of which no write is to fail, and whose writes take as much as they
    /// can.
    ///
    /// # Errors
    ///
    /// Where no memory is left for the room.
    pub fn open(alloc: Global, bytes: usize) -> Result<MemSink, AllocError>
        ensures seen { IfOk result (λ s. ⟦<MemSink as Faulty>⟧.seen s ≡ fresh (Bytes [])) }
        ensures room { IfOk result (λ s. room_in s ≡ bytes) }
        ensures no_writes { IfOk result (λ s. writes_of s ≡ 0) }
        ensures fails_no_write { IfOk result (λ s. s.fail_call.items ≡ []) }
        ensures most { IfOk result (λ s. s.most ≡ usize.MAX) }
    {
        Ok(MemSink {
            store: ByteStore::open(alloc, bytes)?,
            faults: 0,
            writes: 0,
            fail_call: Vec::new(alloc),
            most: usize::MAX,
        })
    }

    /// The bytes that it was given.
    pub fn bytes(&self) -> &[u8]
        ensures { (⟦<MemSink as Faulty>⟧.seen self.now).content ≡ Bytes result.now }
    {
        self.store.as_slice()
    }

    /// How often it failed.
    pub fn faults(&self) -> u64
        ensures { result ≡ (⟦<MemSink as Faulty>⟧.seen self.now).faults }
    {
        self.faults
    }
}

impl Faulty for MemSink {
    ghost use Rattle.std.proofs.Common.{arith};
    ghost use Rattle.sd_memory.specs.MemSink.{seen_of};

    ghost seen = { seen_of };

    ghost faults_fit = { λ s. Prim.omega arith };
}

impl Sink for MemSink {
    ghost use Rattle.std.specs.Prelude.{◌≡◌, ◌<◌, ◌⊎◌, ◌↔◌, length, IfOk, OnErr, IsErr, Contains};
    ghost use Rattle.sd_outside.specs.Turns.{raised};
    ghost use Rattle.sd_memory.specs.MemSink.{Takes, Fails, room_in, writes_of};

    fn write(&mut self, bytes: &[u8]) -> Result<usize, Failed>
        requires { 0 < length bytes.now }
        ensures takes { IfOk result (Takes self.old self.new bytes.now) }
        ensures fails { OnErr result (Fails self.old self.new) }
        ensures cause { IsErr result
            ↔ (Contains self.old.fail_call.items (writes_of self.new) ⊎ (room_in self.old ≡ 0)) }
        ensures counted { writes_of self.new ≡ raised (writes_of self.old) }
        ensures list_stays { self.new.fail_call ≡ self.old.fail_call }
        ensures most_stays { self.new.most ≡ self.old.most }
    {
        let count = bytes.len().min(self.most).min(self.store.room());
        if next_call_fails(&mut self.writes, &self.fail_call) || count == 0 {
            return Err(fault(&mut self.faults));
        }
        self.store.append(&bytes[..count]);
        Ok(count)
    }

    ghost number_fits = { λ _. tt };
}
