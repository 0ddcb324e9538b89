use sd_outside::Clock;

/// A clock in memory, which stands still.
#[derive(Clone, Copy, Debug)]
pub struct MemClock {
    now: u64,
}

impl MemClock {
    ghost use Rattle.std.specs.Prelude.{◌≡◌, ◌↔◌, ℕ};

    /// A clock that answers this moment, in Unix seconds.
    pub fn of(now: u64) -> MemClock
        ensures { (moment : ℕ) → ⟦<MemClock as Clock>⟧.may_say result moment ↔ (moment ≡ now) }
    {
        MemClock { now }
    }
}

impl Clock for MemClock {
    ghost use Rattle.std.specs.Prelude.{◌≡◌};

    ghost may_say = { λ clock moment. moment ≡ clock.now };

    fn now(&self) -> u64 {
        self.now
    }

    fn last(&self) -> u64 {
        self.now
    }
}
