ghost use Rattle.std.specs.Prelude.{◌≡◌, ◌<◌, ◌≤◌, IfOk};

use crate::line_post::{LineRoom, open_line_room};
use crate::out_room::{OutRooms, open_outlets};
use crate::post_rooms::{PostRoom, open_rooms};
use sd_epoch::Limits;
use sd_flush::Tables;
use sd_outside::Ended;
use sd_pool::{Pool, Seats};
use sd_receive::Post;
use sd_session::AdminSpace;
use sd_shard::Policy;
use sd_shared_desk::{DeskSeat, SharedDesk};
use std::alloc::{AllocError, Global};

/// How many shards and receivers a server has, how many wires each receiver has, whether it reads lines of streams, how many buffers
/// each outlet has, none where there are no outlets, and how many bytes each buffer, and what goes by each shard.
#[derive(Clone, Copy, Debug)]
pub struct Sizes {
    pub limits: Limits,
    pub policy: Policy,
    pub shards: u16,
    pub receivers: u16,
    pub wires: u16,
    pub streams: bool,
    pub outlets: u32,
    pub outlet_bytes: u32,
}

impl Sizes {
    ghost use Rattle.std.specs.Prelude.{◌≡◌, ◌≤◌};
    ghost use Rattle.sd_serve.specs.Room.{sizing_of, submitters};

    // How many callers submit samples: the receivers, and the reader of lines, if there is one.
    fn submitters(self) -> u16
        requires { self.receivers ≤ 16 }
        ensures { result ≡ submitters (sizing_of self) }
    {
        if self.streams {
            self.receivers + 1
        } else {
            self.receivers
        }
    }
}

/// All that a server works on, in room that is taken before its workers start. Nothing was done yet.
#[derive(Drop)]
pub struct ServerRoom<D, L> {
    pub(crate) sizes: Sizes,
    pub(crate) pool: Pool,
    pub(crate) seats: Seats,
    pub(crate) desk: SharedDesk,
    pub(crate) owns: Vec<DeskSeat>,
    pub(crate) benches: Benches,
    pub(crate) postings: Postings<D, L>,
}

/// What the flusher, the sessions, the reader of lines and the outlets work with.
#[derive(Drop)]
pub(crate) struct Benches {
    pub(crate) tables: Tables,
    pub(crate) space: AdminSpace,
    pub(crate) lines: Option<LineRoom>,
    pub(crate) outs: Option<OutRooms>,
}

impl Benches {
    ghost use Rattle.sd_serve.specs.Room.{AreBenchesFor, AreSizes, sizing_of};

    fn open(alloc: Global, sizes: Sizes, seed: u64) -> Result<Benches, AllocError>
        requires { AreSizes (sizing_of sizes) }
        ensures { IfOk result (AreBenchesFor (sizing_of sizes)) }
    {
        Ok(Benches {
            lines: open_line_room(alloc, sizes.streams, sizes.shards)?,
            outs: open_outlets(alloc, sizes.outlets, sizes.outlet_bytes)?,
            space: AdminSpace::open(alloc, sizes.limits, sizes.shards)?,
            tables: Tables::open(alloc, sizes.limits, sizes.shards, seed)?,
        })
    }
}

/// What the receivers work with.
#[derive(Drop)]
pub(crate) struct Postings<D, L> {
    pub(crate) rooms: Vec<PostRoom<L>>,
    pub(crate) posts: Vec<Post<D, L>>,
    pub(crate) ends: Vec<Ended>,
}

impl<D: Drop, L: Drop> Postings<D, L> {
    ghost use Rattle.sd_serve.specs.Room.{ArePostingsFor, sizing_of};

    fn open(alloc: Global, sizes: Sizes) -> Result<Postings<D, L>, AllocError>
        requires { 0 < sizes.shards }
        ensures { IfOk result (ArePostingsFor (sizing_of sizes)) }
    {
        let count = usize::from(sizes.receivers);
        Ok(Postings {
            posts: Vec::with_capacity(alloc, count)?,
            ends: Vec::with_capacity(alloc, count)?,
            rooms: open_rooms(alloc, count, usize::from(sizes.wires), sizes.shards)?,
        })
    }
}

impl<D: Drop, L: Drop> ServerRoom<D, L> {
    ghost use Rattle.sd_serve.specs.Room.{AreSizes, IsRoom, sizing_in, sizing_of, start_in};

    /// Takes the room of a server that starts at this Unix second, and whose rows are found by hashes under a seed.
    ///
    /// # Errors
    ///
    /// Where no memory is left for it.
    pub fn open(
        alloc: Global,
        sizes: Sizes,
        start: u64,
        seed: u64,
    ) -> Result<ServerRoom<D, L>, AllocError>
        requires { AreSizes (sizing_of sizes) }
        ensures room { IfOk result IsRoom }
        ensures sizes { IfOk result (λ room. sizing_in room ≡ sizing_of sizes) }
        ensures start { IfOk result (λ room. start_in room ≡ start) }
    {
        let submitters = sizes.submitters();
        // where one of these isn't opened, each of those before is let go as a whole
        let benches = Benches::open(alloc, sizes, seed)?;
        let postings = Postings::open(alloc, sizes)?;
        let (desk, owns) = SharedDesk::open(alloc, start, submitters + 2)?;
        let (pool, seats) = Pool::open(
            alloc,
            sizes.limits,
            sizes.policy,
            sizes.shards,
            submitters,
            seed,
        )?;
        Ok(ServerRoom {
            sizes,
            pool,
            seats,
            desk,
            owns,
            benches,
            postings,
        })
    }
}
