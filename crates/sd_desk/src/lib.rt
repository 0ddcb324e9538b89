//! The desk: what the server counts of itself, when the last datagram came, and whether it is well.
//!
//! A replay has a `Desk` in hand, and the server's workers share one by `sd_shared_desk`; records have its `Tally`, and
//! `sd_delivery` answers its `RoundMarks`. Counts stop at 2^63. It reads no clock, since moments come with the calls, and takes
//! no memory.
#![tactic(auto)]

mod count;
mod desk;
mod facts;
mod marks;
mod tally;

pub use desk::Desk;
pub use facts::DeskFacts;
pub use marks::{Mark, RoundMarks};
pub use tally::Tally;
