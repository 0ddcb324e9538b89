ghost use Rattle.std.specs.Prelude.{◌≡◌, IfOk};

use sd_config::Settings;
use sd_record::RecordScratch;
use sd_run::{limits_of, policy_of};
use sd_script::Reader;
use sd_shard::{Dump, Keys};
use sd_shards::Shards;
use std::alloc::{AllocError, Global};
use std::marker::Model;

/// The seed of the hashes by which rows are found.
const SEED: u64 = 0;

/// All that a replay works on, in room taken when it was opened for its settings. Nothing was done yet.
#[derive(Drop)]
pub struct ReplayRoom {
    pub(crate) shards: Shards,
    pub(crate) scratch: RecordScratch,
    pub(crate) keys: Keys,
    pub(crate) dump: Dump,
    pub(crate) reader: Reader,
}

impl Model for ReplayRoom {
    ghost use Rattle.sd_replay.specs.Room.{Sizing};

    ghost Value = { Sizing };

    ghost use Rattle.sd_replay.specs.RoomInside.{sizing_in, IsFresh};

    ghost view = { sizing_in };

    ghost invariant = { IsFresh };
}

impl ReplayRoom {
    ghost use Rattle.sd_model_replay.specs.Replay.{limits_of, policy_of};
    ghost use Rattle.sd_replay.specs.Room.{sizing_of};

    /// Takes the room.
    ///
    /// # Errors
    ///
    /// Where no memory is left for it.
    pub fn open(alloc: Global, settings: &Settings) -> Result<ReplayRoom, AllocError>
        ensures { IfOk result (λ room. room ≡ sizing_of settings.now) }
    {
        let limits = limits_of(settings);
        let shards = settings.shards() as u16;
        let rows = u32::from(shards) * limits.rows;
        Ok(ReplayRoom {
            shards: Shards::open(alloc, shards, limits, policy_of(settings), SEED)?,
            scratch: RecordScratch::open(alloc, limits, shards)?,
            keys: Keys::open(alloc, rows)?,
            dump: Dump::open(alloc, rows)?,
            reader: Reader::open(alloc, settings.receivers() as u16)?,
        })
    }
}
