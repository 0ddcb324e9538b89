ghost use Rattle.std.specs.Prelude.{◌≤◌, IfOk};
ghost use Rattle.sd_epoch.specs.Limits.{limits_of, AreLimits};

use sd_epoch::Limits;
use sd_shard::{Dump, Keys};
use sd_talk::LineRoom;
use std::alloc::{AllocError, Global};

/// The room for replies: for the keys and the rows that all shards tell.
#[derive(Drop)]
pub(crate) struct ReplyRoom {
    pub keys: Keys,
    pub dump: Dump,
}

/// The room that admin sessions work in: for replies, and for a line.
#[derive(Drop)]
pub struct AdminSpace {
    pub(crate) replies: ReplyRoom,
    pub(crate) line: LineRoom,
}

impl AdminSpace {
    ghost use Rattle.sd_session.specs.Space.{IsSpaceFor};

    /// Takes the room for sessions over so many shards of these limits.
    ///
    /// # Errors
    ///
    /// Where no memory is left for it.
    pub fn open(alloc: Global, limits: Limits, shards: u16) -> Result<AdminSpace, AllocError>
        requires limits { AreLimits (limits_of limits) }
        requires shards { shards ≤ 16 }
        ensures { IfOk result (IsSpaceFor (limits_of limits) shards) }
    {
        let rows = u32::from(shards) * limits.rows;
        Ok(AdminSpace {
            replies: ReplyRoom {
                keys: Keys::open(alloc, rows)?,
                dump: Dump::open(alloc, rows)?,
            },
            line: LineRoom::open(alloc)?,
        })
    }
}
