ghost use Rattle.std.specs.Prelude.{IfOk};

use std::alloc::{AllocError, Global};

// The most bytes of a line, with the newline that ends it.
const LINE_ROOM: usize = 1024;

/// The room for a line, of 1,024 bytes. In a session its first `len` bytes were read, and aren't executed yet.
#[derive(Drop)]
pub struct LineRoom {
    pub(crate) bytes: Vec<u8>,
    pub(crate) len: usize,
}

impl LineRoom {
    ghost use Rattle.sd_talk.specs.Room.{IsLineRoom};

    /// Takes the room for a line.
    ///
    /// # Errors
    ///
    /// Where no memory is left for it.
    pub fn open(alloc: Global) -> Result<LineRoom, AllocError>
        ensures { IfOk result IsLineRoom }
    {
        Ok(LineRoom {
            bytes: vec![in alloc; 0; LINE_ROOM]?,
            len: 0,
        })
    }
}
