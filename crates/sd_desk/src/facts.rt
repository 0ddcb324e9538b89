use crate::tally::Tally;
use sd_outside::PerBackend;

/// What a desk tells of itself. The start and the last message are in Unix seconds: the last message is the moment of the
/// last datagram, or the start where none came. The totals, the flushes and the faults are those since the start, each up to
/// 2^63.
#[derive(Clone, Copy, Debug, PartialEq, Eq)]
pub struct DeskFacts {
    pub start: u64,
    pub last: u64,
    pub totals: Tally,
    pub up: bool,
    pub rounds: u64,
    pub faults: PerBackend<u64>,
    pub repeater_faults: u64,
    pub admin_faults: u64,
}
