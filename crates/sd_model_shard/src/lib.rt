//! The definitions of a shard: its rows and entries, what one event does to them, and its history: who asked what of
//! it, what it answered, and where each sample is; and what a list of values comes to. The functions have no code, and each
//! states a law of the definitions.
//!
//! `sd_rows`, `sd_epoch`, `sd_stats` and `sd_shard` cite them for one shard, and `sd_pool` for what threads do to it. The
//! definitions of records, replays and servers stand on its histories. They know no threads: a caller is a number.
#![tactic(auto)]

mod commands;
mod history;
mod values;

pub use commands::answers_have_one_order;
pub use history::rows_are_reported;
pub use values::{
    bins_add_up, deviations_are_largest, lists_are_sorted, means_lie_between,
    parts_of_hundred_are_whole,
};
