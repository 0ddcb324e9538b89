//! The history behind the turn of a shared desk.
use crate::ask::{DeskAsk, DeskReply};

/// An entry of the history behind a turn: the number of the seat, what it asked, and the reply. No value of it is made.
pub struct Noted {
    pub number: u64,
    pub ask: DeskAsk,
    pub reply: DeskReply,
}

/// What is fixed of a desk behind a turn: when the server started, and how many seats there are. No value of it is made.
pub struct Setup {
    pub start: u64,
    pub seats: u64,
}
