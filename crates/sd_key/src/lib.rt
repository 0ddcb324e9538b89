//! Names of metrics: the keys that they are kept under, their kinds, and the patterns that delete them.
//!
//! `sd_line` and `sd_proxy` make keys of names, `sd_rows` finds rows by them, `sd_shards` and `sd_pool` pick a key's shard, and
//! `sd_shard` deletes by patterns. Keys and patterns have room of a fixed size: no call takes memory.
#![tactic(auto)]

mod cleaning;
mod key;
mod kind;
mod part;
mod pattern;
mod prefix;
mod shard;

pub use cleaning::{KeyFault, clean, is_name_byte, is_white_space};
pub use key::{Key, keys_order};
pub use kind::{Kind, kinds_order};
pub use part::has_part;
pub use pattern::{Pattern, matches};
pub use prefix::{Prefix, name_prefix};
pub use shard::{fnv1a, shard_of};
