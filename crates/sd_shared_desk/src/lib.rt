//! The desk that threads share: it stands behind a turn, and has one legal history of the calls of those who share it.
//!
//! The server's workers call it: receivers add tallies, rounds take them and mark, the keepers of doors count faults, and
//! sessions set the health and ask for the facts. Each call waits for the desk's turn. Only `open` takes memory. It reads no
//! clock: moments come with the calls.
#![tactic(auto)]

mod ask;
mod noted;
mod shared_desk;
mod value;

pub use ask::{DeskAsk, DeskReply};
pub use shared_desk::{DeskSeat, SharedDesk};
