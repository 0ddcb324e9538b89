//! The receivers of a proxy beside its checker, the keeper of its port and its reader of lines, each in a thread of its own: the checker
//! asks the nodes how they are, each receiver sends the lines of its datagrams to the nodes that it finds up, the reader of lines does
//! so with those of the streams of its door, where it is there, and the port's sessions are answered, where the settings have a port.
//! All count at one desk, and ask there. What all receivers and the reader of lines counted is added up in 128 bits.
//!
//! `sd_top` takes the room, opens all objects, and calls `relay`. All memory is taken in `RelayRoom::open`, but for what the
//! rings' caches ask for. It opens no object, and writes no totals but to sessions that ask for them. That the threads come to their
//! end, no clause says.
#![tactic(auto)]

mod checking;
mod line_post;
mod line_work;
mod live;
mod objects;
mod own_parts;
mod port;
mod post;
mod post_rooms;
mod postings;
mod relaying;
mod room;
mod sums;
mod workers;

pub use live::Live;
pub use objects::RelayParts;
pub use post::Post;
pub use relaying::{Relayed, relay};
pub use room::RelayRoom;
pub use sums::{ProxySums, add_up};
