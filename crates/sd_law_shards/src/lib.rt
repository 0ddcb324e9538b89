//! The law of shards: where none drops a sample, a script doesn't show how many shards it ran over. The functions have no
//! code, and each states a law of the definitions.
//!
//! It is there for its laws, and no other definitions cite it. `sd_shards` and `sd_session` cite it for rows that stand in the
//! shard of their key.
#![tactic(auto)]

mod shards;

pub use shards::{no_drop_is_reported, rows_are_at_home, shards_are_not_shown};
