use sd_outside::DoorEnd;
use sd_proxy_desk::ProxyTotals;

/// What a reader of lines did: how the serving of its door ended, and what it counted. `Stopped` doesn't come.
#[derive(Clone, Copy, Debug, PartialEq, Eq)]
pub struct Lined {
    pub ended: DoorEnd,
    pub totals: ProxyTotals,
}
