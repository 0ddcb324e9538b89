use sd_outside::Ended;
use sd_proxy_desk::ProxyTotals;

/// What a proxy did: how it ended, and what it counted. `Stopped` doesn't come.
#[derive(Clone, Copy, Debug, PartialEq, Eq)]
pub struct Proxied {
    pub ended: Ended,
    pub totals: ProxyTotals,
}
