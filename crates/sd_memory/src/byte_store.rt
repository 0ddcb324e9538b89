ghost use Rattle.std.specs.Prelude.{◌≤◌, vec_len, vec_capacity};

use std::alloc::{AllocError, Global};

/// Bytes in a buffer, whose room is taken when it is made.
#[derive(Drop)]
pub(crate) struct ByteStore {
    bytes: Vec<u8>,
    room: usize,
    ghost within_room: { vec_len bytes ≤ room },
    ghost room_is_taken: { room ≤ vec_capacity bytes },
}

impl ByteStore {
    ghost use Rattle.std.specs.Prelude.{◌≡◌, ◌+◌, ◌≤◌, [], ◌++◌, length, IfOk};
    ghost use Rattle.sd_memory.specs.ByteStore.{bytes_in, room_in};

    /// An empty buffer with room for that many bytes.
    ///
    /// # Errors
    ///
    /// Where no memory is left for the room.
    pub(crate) fn open(alloc: Global, room: usize) -> Result<ByteStore, AllocError>
        ensures empty { IfOk result (λ s. bytes_in s ≡ []) }
        ensures room { IfOk result (λ s. room_in s ≡ room) }
    {
        Ok(ByteStore {
            bytes: Vec::with_capacity(alloc, room)?,
            room,
        })
    }

    pub(crate) fn len(&self) -> usize
        ensures { result ≡ length (bytes_in self.now) }
    {
        self.bytes.len()
    }

    pub(crate) fn as_slice(&self) -> &[u8]
        ensures { result.now ≡ bytes_in self.now }
    {
        &self.bytes
    }

    /// How many bytes more it has room for.
    pub(crate) fn room(&self) -> usize
        ensures { result ≡ room_in self.now }
    {
        self.room - self.bytes.len()
    }

    pub(crate) fn append(&mut self, bytes: &[u8])
        requires { length bytes.now ≤ room_in self.old }
        ensures bytes { bytes_in self.new ≡ bytes_in self.old ++ bytes.now }
        ensures room { room_in self.new + length bytes.now ≡ room_in self.old }
    {
        self.bytes.extend_from_slice(bytes).unwrap();
    }
}
