//! Datagrams and lines: the pieces of a datagram, and the sample of each.
//!
//! `sd_batch` goes through a datagram with `Lines`, for a replay and a server alike, and `sd_proxy` with `Parts`. A bad piece
//! has a cause and leaves the others as they are. It reads bytes that the caller lends, takes no memory, and knows no shards.
#![tactic(auto)]

mod cut;
mod fields;
mod lines;
mod named;
mod parts;
mod piece;
mod reading;
mod sample;
mod values;

pub use lines::Lines;
pub use parts::{Parts, name_before_colon};
pub use piece::Bad;
pub use sample::{Member, Sample};
