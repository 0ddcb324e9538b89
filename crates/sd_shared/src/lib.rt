//! What the workers of a server share: one value with names, which each of their calls takes; and the keeping of a door.
//!
//! `sd_serve` makes the value, and hands it to `sd_receive`, `sd_flush` and `sd_session`. `sd_session` keeps the admin door by
//! `keep_door`, and `sd_receive` the door of streams: sessions are taken of it one after another, each is visited as a `Visitor`
//! says, and given back. A fault is counted at the desk, and the door is asked again. It opens no door, reads and writes nothing
//! of a session itself, and takes no memory. It waits for the door and for the desk's turn.
#![tactic(auto)]

mod door_keeper;
mod shared;
mod visitor;

pub use door_keeper::keep_door;
pub use shared::Shared;
pub use visitor::Visitor;
