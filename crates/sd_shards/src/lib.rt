//! The shards of a replay, over which samples are spread by their keys.
//!
//! `sd_replay` files datagrams and swaps with them, and `sd_command` deletes, dumps and looks. A server has `sd_pool` in their place.
//! All memory is taken in `Shards::open`. They have one caller, and no call waits.
#![tactic(auto)]

mod books;
mod commands;
mod in_hand;
mod open;
mod shards;
mod swap;

pub use sd_batch::Filed;
pub use shards::Shards;
