ghost use Rattle.std.specs.Prelude.{◌≡◌};
ghost use Rattle.sd_model_live.specs.Port.{CountsCheck, CountsRead, facts_after, first_facts};
ghost use Rattle.sd_proxy_desk.specs.Views.{facts_view, totals_view};

use crate::totals::{ProxyTotals, raised};

/// What a proxy tells of itself: what its receivers and its reader of lines counted, how many checks were made and how many of their
/// questions failed, each up to 2^63, and whether it is said to be well.
#[derive(Clone, Copy, Debug, PartialEq, Eq)]
pub struct ProxyFacts {
    pub totals: ProxyTotals,
    pub checks: u64,
    pub probe_faults: u64,
    pub up: bool,
}

impl ProxyFacts {
    // The facts before anything was done.
    pub(crate) fn first() -> ProxyFacts
        ensures { facts_view result ≡ first_facts }
    {
        ProxyFacts {
            totals: ProxyTotals::none(),
            checks: 0,
            probe_faults: 0,
            up: true,
        }
    }

    // Adds what a read came to.
    pub(crate) fn add_totals(&mut self, totals: ProxyTotals)
        ensures { facts_view self.new ≡ facts_after (facts_view self.old) (CountsRead (totals_view totals)) }
    {
        self.totals = self.totals.and(totals);
    }

    // Adds a check, of which so many questions failed.
    pub(crate) fn add_check(&mut self, failed: u64)
        ensures { facts_view self.new ≡ facts_after (facts_view self.old) (CountsCheck failed) }
    {
        self.checks = raised(self.checks, 1);
        self.probe_faults = raised(self.probe_faults, failed);
    }
}
