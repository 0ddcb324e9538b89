ghost use Rattle.std.specs.Prelude.{◌≤◌, length};

use std::alloc::{AllocError, Global};

/// How many bytes of a text are sent at once.
const ROOM: usize = 65_536;

/// What of a text waits to be sent, in a room that is taken once.
#[derive(Drop)]
pub(crate) struct TextRoom {
    bytes: Vec<u8>,
    sent: usize,
}

impl TextRoom {
    /// No room, for which no memory is taken.
    pub(crate) fn none(alloc: Global) -> TextRoom {
        TextRoom {
            bytes: Vec::new(alloc),
            sent: 0,
        }
    }

    /// # Errors
    ///
    /// Where no memory is left for the room.
    pub(crate) fn open(alloc: Global) -> Result<TextRoom, AllocError> {
        Ok(TextRoom {
            bytes: Vec::with_capacity(alloc, ROOM)?,
            sent: 0,
        })
    }

    /// Forgets what waits.
    pub(crate) fn clear(&mut self) {
        self.bytes.clear();
        self.sent = 0;
    }

    /// Whether nothing more can wait.
    pub(crate) fn is_full(&self) -> bool {
        self.bytes.len() >= ROOM
    }

    /// Takes as many of these bytes as there is room for, and answers how many.
    pub(crate) fn take(&mut self, bytes: &[u8]) -> usize
        ensures { result ≤ length bytes.now }
    {
        let count = bytes.len().min(ROOM.saturating_sub(self.bytes.len()));
        match self.bytes.extend_from_slice(&bytes[..count]) {
            Ok(()) => count,
            Err(_) => 0,
        }
    }

    /// What waits and wasn't sent.
    pub(crate) fn rest(&self) -> &[u8] {
        self.bytes.get(self.sent..).unwrap_or(&[])
    }

    /// So many more bytes were sent.
    pub(crate) fn note_sent(&mut self, count: usize) {
        self.sent = self.sent.saturating_add(count);
    }
}
