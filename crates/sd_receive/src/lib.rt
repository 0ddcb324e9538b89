//! Receivers: each takes datagrams of a source, repeats them on wires, submits their samples to a pool, and counts them at a
//! desk. Streams of lines are read, submitted and counted too.
//!
//! `sd_serve` runs each receiver, and the keeper of streams, in a thread. They wait for their source, for the turns of shards and
//! for the desk's, and take no memory. A send that fails is counted, and its datagram is submitted all the same. They open
//! nothing and answer nobody; the clock is asked for the desk alone.
#![tactic(auto)]

mod account;
mod line_reading;
mod line_visitor;
mod lines;
mod post;
mod received;
mod receiving;
mod streamed;
mod streaming;
mod submitting;
mod telling;
mod turn;

pub use line_reading::{Lined, linekeep};
pub use post::Post;
pub use received::Received;
pub use receiving::receive;
pub use streamed::{StreamEnd, Streamed};
pub use streaming::stream;
