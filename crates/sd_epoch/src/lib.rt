//! The rows of one epoch of a shard, what came to each, and room for the values and members of a row.
//!
//! Rows stand in places that stay, and are found through an index. What a row's samples come to is kept as sums that each sample
//! moves. The values of timers and the members of sets stand apart, each with the place of its row, and are chained, so that none
//! of them is searched for. A counter's and a gauge's sample takes no room of its own.
//!
//! `sd_shard` files samples into a table and swaps it, `sd_shard` keeps those that wait, and `sd_record` reads what their rows
//! come to. All memory is taken in `open`. A table admits and deletes nothing of itself: that is for `sd_shard` to say.
#![tactic(auto)]

mod chain;
mod forget;
mod limits;
mod members;
mod order;
mod placing;
mod scratch;
mod table;
mod tally;
mod values;

pub use limits::{Limits, Who};
pub use scratch::Scratch;
pub use table::{RowFacts, Table};
