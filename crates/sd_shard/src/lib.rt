//! A shard: rows with what came to them, the events that change them, and the tables that shards are swapped for.
//!
//! `sd_shards` has the shards of a replay, and `sd_pool` those of a server; both swap one by `swap_shard` for a table of a
//! `Spares`, which `sd_flush` keeps for a server. What a sample, a swap, a deletion and a dump do is the definitions' step, and
//! nothing else. A table comes back with its rows in place, and a swap copies no row that stands there already. Only `open`
//! takes memory, of a shard, of spares, and of the lists that a shard fills. A shard knows no threads and no clock: it has one
//! caller at a time, and how long a row is idle is a number of swaps.
#![tactic(auto)]

mod commands;
mod dump;
mod keep_rows;
mod keys;
mod listed;
mod policy;
mod shard;
mod spares;
mod swap;

pub use dump::{Dump, DumpRow};
pub use keys::Keys;
pub use listed::Listed;
pub use policy::Policy;
pub use shard::{Books, Cause, Deleted, Placed, Shard, ShardBook};
pub use spares::Spares;
pub use swap::swap_shard;
