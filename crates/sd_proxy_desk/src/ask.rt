use crate::facts::ProxyFacts;
use crate::totals::ProxyTotals;

/// What a caller asks of a proxy's desk: the call of `ProxyDesk` of that name, with its arguments.
#[derive(Clone, Copy, Debug, PartialEq, Eq)]
pub enum ProxyAsk {
    Count { totals: ProxyTotals },
    Check { failed: u64 },
    SetHealth { up: bool },
    Facts,
}

/// What a caller is answered: that it is done, or the facts.
#[derive(Clone, Copy, Debug, PartialEq, Eq)]
pub enum ProxyReply {
    Done,
    Reported(ProxyFacts),
}
