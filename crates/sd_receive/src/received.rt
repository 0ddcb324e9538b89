use sd_desk::Tally;
use sd_outside::Ended;

/// What a receiver did: how it ended, what the datagrams that it read count for, and how many of their samples were taken.
/// Each number stops at 2^63.
#[derive(Clone, Copy, Debug, PartialEq, Eq)]
pub struct Received {
    pub ended: Ended,
    pub tally: Tally,
    pub taken: u64,
}
