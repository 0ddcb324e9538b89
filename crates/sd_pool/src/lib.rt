//! Shards behind turns: each has one history, of which every seat tells what it has seen and made.
//!
//! `sd_receive` submits samples, `sd_flush` swaps, `sd_session` deletes and dumps, and `sd_serve` opens and closes it. A call is
//! one act at one shard: it waits for the turn of that shard alone, and has given it back when it answers. Only `open` takes
//! memory. A replay has `sd_shards` in its place.
#![tactic(auto)]

mod asks;
mod calls;
mod close;
mod noted;
mod open;
mod pool;
mod seat;
mod setup;
mod shares;
mod value;

pub use noted::Noted;
pub use pool::Pool;
pub use seat::{Room, Seat, Seats};
pub use setup::Setup;
pub use shares::{books_are_sums, histories_join, shares_grow};
pub use value::ShardValue;
