ghost use Rattle.std.specs.Prelude.{◌<◌, ◌≤◌, IfOk};
ghost use Rattle.sd_epoch.specs.Limits.{limits_of, AreLimits};

use sd_epoch::Limits;
use sd_record::RecordScratch;
use sd_shard::Spares;
use std::alloc::{AllocError, Global};

/// The tables that a flusher swaps the shards for, and room for a record of those that they give.
#[derive(Debug, Drop)]
pub struct Tables {
    pub(crate) spares: Spares,
    pub(crate) scratch: RecordScratch,
}

impl Tables {
    ghost use Rattle.sd_flush.specs.Tables.{AreTablesFor};

    /// Tables for so many shards with these limits, whose rows are found by hashes under a seed.
    ///
    /// # Errors
    ///
    /// Where no memory is left for it.
    pub fn open(alloc: Global, limits: Limits, shards: u16, seed: u64) -> Result<Tables, AllocError>
        requires limits { AreLimits (limits_of limits) }
        requires some { 0 < shards }
        requires few { shards ≤ 16 }
        ensures { IfOk result (AreTablesFor (limits_of limits) shards) }
    {
        Ok(Tables {
            spares: Spares::open(alloc, shards, limits, seed)?,
            scratch: RecordScratch::open(alloc, limits, shards)?,
        })
    }
}
