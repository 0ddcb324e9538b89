ghost use Rattle.std.specs.Prelude.{◌≡◌, ◌+◌, ◌≤◌, ◌↔◌, IsTrue, None, Some, min};
ghost use Rattle.sd_edge.specs.Addresses.{IsDue, kept_place, next_place, place_behind};

/// How long the addresses of a name hold before it is looked up anew, in milliseconds.
const HOLDS: u64 = 60_000;

/// How long behind a look-up the next one is, where all addresses fail, in milliseconds.
const FAILS: u64 = 1_000;

/// Which of the addresses of a name is the next to be tried, and when the name is to be looked up anew. Addresses are known by their
/// place in the list that the last look-up found.
#[derive(Clone, Copy, Debug, PartialEq, Eq)]
pub struct AddressTurns {
    /// How many addresses are known.
    pub count: usize,
    /// The place of the one that is tried next, where one is known.
    pub at: usize,
    /// How many failed one after another, up to `count`.
    pub failed: usize,
    /// When the name was looked up last, if it was.
    pub asked_at: Option<u64>,
}

impl AddressTurns {
    /// No address is known.
    pub fn none() -> AddressTurns
        ensures count { result.count ≡ 0 }
        ensures at { result.at ≡ 0 }
        ensures failed { result.failed ≡ 0 }
        ensures asked_at { result.asked_at ≡ None }
    {
        AddressTurns {
            count: 0,
            at: 0,
            failed: 0,
            asked_at: None,
        }
    }

    /// The name is looked up now.
    pub fn ask(&mut self, now: u64)
        ensures asked_at { self.new.asked_at ≡ Some now }
        ensures count { self.new.count ≡ self.old.count }
        ensures at { self.new.at ≡ self.old.at }
        ensures failed { self.new.failed ≡ self.old.failed }
    {
        self.asked_at = Some(now);
    }

    /// A look-up found so many addresses. The one that was to be tried next is so again, where it stands in the new list.
    pub fn learn(&mut self, count: usize, kept: Option<usize>)
        ensures count { self.new.count ≡ count }
        ensures at { self.new.at ≡ kept_place count kept }
        ensures failed { self.new.failed ≡ 0 }
        ensures asked_at { self.new.asked_at ≡ self.old.asked_at }
    {
        self.at = match kept {
            Some(place) if place < count => place,
            _ => 0,
        };
        self.count = count;
        self.failed = 0;
    }

    /// The place of the address that is tried next.
    pub fn next(&self) -> Option<usize>
        ensures { result ≡ next_place self.now.count self.now.at }
    {
        if self.at < self.count {
            Some(self.at)
        } else {
            None
        }
    }

    /// The address that was tried failed: the one behind it is the next, and behind the last the first.
    pub fn fail(&mut self)
        ensures at { self.new.at ≡ place_behind self.old.count self.old.at }
        ensures failed { self.new.failed ≡ min (self.old.failed + 1) self.old.count }
        ensures count { self.new.count ≡ self.old.count }
        ensures asked_at { self.new.asked_at ≡ self.old.asked_at }
    {
        let behind = self.at.saturating_add(1);
        self.at = if behind < self.count { behind } else { 0 };
        self.failed = self.failed.saturating_add(1).min(self.count);
    }

    /// The address that was tried served, and stays the next.
    pub fn serve(&mut self)
        ensures failed { self.new.failed ≡ 0 }
        ensures at { self.new.at ≡ self.old.at }
        ensures count { self.new.count ≡ self.old.count }
        ensures asked_at { self.new.asked_at ≡ self.old.asked_at }
    {
        self.failed = 0;
    }

    /// Whether each known address has failed, so that nothing is left to be tried before the name is looked up anew.
    pub fn have_failed(&self) -> bool
        ensures { IsTrue result ↔ (self.now.count ≤ self.now.failed) }
    {
        self.failed >= self.count
    }

    /// Whether the name is to be looked up: where it never was, a minute behind the last look-up, and where each known address has
    /// failed, a second behind it.
    pub fn is_due(&self, now: u64) -> bool
        ensures { IsTrue result ↔ IsDue self.now.count self.now.failed self.now.asked_at now }
    {
        let Some(asked_at) = self.asked_at else {
            return true;
        };
        let since = now.saturating_sub(asked_at);
        since >= HOLDS || (self.have_failed() && since >= FAILS)
    }
}
