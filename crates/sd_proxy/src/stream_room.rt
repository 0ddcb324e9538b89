ghost use Rattle.std.specs.Prelude.{IfOk};

use sd_tcp::Cutter;
use std::alloc::{AllocError, Global};

// How many bytes a read takes at most.
const MOST_READ: usize = 65_527;

/// Room for reading lines over TCP: what cuts lines out of a stream, and room for what one read gives.
#[derive(Drop)]
pub struct StreamRoom {
    pub cutter: Cutter,
    pub buf: Vec<u8>,
}

impl StreamRoom {
    ghost use Rattle.sd_proxy.specs.Streaming.{IsStreamRoom};

    /// Takes the room for a line and for a read.
    ///
    /// # Errors
    ///
    /// Where no memory is left for it.
    pub fn open(alloc: Global) -> Result<StreamRoom, AllocError>
        ensures { IfOk result IsStreamRoom }
    {
        Ok(StreamRoom {
            cutter: Cutter::open(alloc)?,
            buf: vec![in alloc; 0; MOST_READ]?,
        })
    }
}
