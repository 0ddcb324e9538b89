//! The history behind the turn of a proxy's desk.
use crate::ask::{ProxyAsk, ProxyReply};

/// An entry of the history behind a turn: the number of the seat, what it asked, and the reply. No value of it is made.
pub struct Noted {
    pub number: u64,
    pub ask: ProxyAsk,
    pub reply: ProxyReply,
}

/// What is fixed of a desk behind a turn: how many seats there are. No value of it is made.
pub struct Setup {
    pub seats: u64,
}
