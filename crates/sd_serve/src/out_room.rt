ghost use Rattle.std.specs.Prelude.{◌<◌, IfOk, nat_lt};
ghost use Rattle.sd_serve.specs.OutRoom.{HasOutRooms};

use sd_outlet::{Drain, Feed, Outlet};
use sd_outside::PerBackend;
use std::alloc::{AllocError, Global};

/// An outlet with its two ends, in room that is taken before the server's workers start. Nothing was sent.
#[derive(Drop)]
pub struct OutRoom {
    pub(crate) outlet: Outlet,
    pub(crate) feed: Feed,
    pub(crate) drain: Drain,
}

impl OutRoom {
    ghost use Rattle.std.specs.Prelude.{◌<◌, IfOk};
    ghost use Rattle.sd_serve.specs.OutRoom.{IsOutRoomOf};

    /// Takes the room of an outlet of `n` buffers of so many bytes.
    ///
    /// # Errors
    ///
    /// Where no memory is left for it.
    pub fn open(alloc: Global, n: u32, bytes: u32) -> Result<OutRoom, AllocError>
        requires some { (0 < n) × (0 < bytes) }
        ensures { IfOk result (IsOutRoomOf n bytes) }
    {
        let (outlet, feed, drain) = Outlet::open(alloc, n, bytes)?;
        Ok(OutRoom {
            outlet,
            feed,
            drain,
        })
    }
}

/// The outlet of each backend. That of one that isn't used is there too, and nothing goes through it.
pub type OutRooms = PerBackend<OutRoom>;

/// Takes the room of outlets of so many buffers each, where that isn't 0, each buffer of so many bytes.
///
/// # Errors
///
/// Where no memory is left for it.
pub(crate) fn open_outlets(
    alloc: Global,
    n: u32,
    bytes: u32,
) -> Result<Option<OutRooms>, AllocError>
    requires { 0 < bytes }
    ensures { IfOk result (HasOutRooms (nat_lt 0 n) n bytes) }
{
    if n == 0 {
        return Ok(None);
    }
    Ok(Some(PerBackend {
        graphite: OutRoom::open(alloc, n, bytes)?,
        console: OutRoom::open(alloc, n, bytes)?,
    }))
}
