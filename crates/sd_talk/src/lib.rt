//! Sessions by lines, whatever a line asks for: they are held at the two ends of a connection, and the sessions of a door are
//! served one after another.
//!
//! Whoever answers lines says by `Answerer` what a line comes to. Only `LineRoom::open` takes memory, and a line has room for
//! 1,024 bytes. A session waits for its two ends, and for what its answers wait for. It opens and closes no connection: that is
//! for the door to do.
#![tactic(auto)]

mod answerer;
mod room;
mod serving;
mod sessions;

pub use answerer::{Answerer, LineAnswer};
pub use room::LineRoom;
pub use serving::serve_talks;
pub use sessions::{SessionEnd, session};
