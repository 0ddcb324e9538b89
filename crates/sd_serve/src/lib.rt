//! The server's workers, over one pool and one desk.
//!
//! `sd_top` takes the room, opens all objects, and calls `serve`: the flusher, the keeper of the admin door, the receivers and,
//! where the settings ask for them, the keeper of streams and the outlets' workers run side by side; then it makes the last
//! round, and closes the pool and the desk. All memory is taken where a room is opened, as in `ServerRoom::open`, and none later.
//! It opens no object and writes no totals. That the workers come to their end, no clause says.
#![tactic(auto)]

mod beside;
mod crew;
mod line_post;
mod objects;
mod out_room;
mod outlets;
mod post_rooms;
mod room;
mod run_settings;
mod services;
mod serving;
mod work;
mod workers;

pub use line_post::{LinePost, LineRoom};
pub use objects::{ObjectsOf, ServerObjects};
pub use out_room::{OutRoom, OutRooms};
pub use outlets::{OutCount, OutCounts};
pub use room::{ServerRoom, Sizes};
pub use run_settings::RunSettings;
pub use serving::{Served, serve};
pub use workers::Ends;
