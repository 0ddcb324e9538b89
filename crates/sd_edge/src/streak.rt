ghost use Rattle.std.specs.Prelude.{◌≡◌};
ghost use Rattle.sd_edge.specs.Telling.{failures_logged, missed, next_failures};

/// How often something failed in a row. Of failures that go on ever more seldom one is worth telling: the first, the second, the
/// fourth, the eighth and so on.
#[derive(Clone, Copy, Debug, PartialEq, Eq)]
pub struct Streak {
    pub failures: u64,
}

impl Streak {
    /// Nothing has failed.
    pub fn new() -> Streak
        ensures { result.failures ≡ 0 }
    {
        Streak { failures: 0 }
    }

    /// It failed. Answers how often in a row by now, where that is to be told.
    pub fn fail(&mut self) -> Option<u64>
        ensures failures { self.new.failures ≡ next_failures self.old.failures }
        ensures logged { result ≡ failures_logged (next_failures self.old.failures) }
    {
        self.failures = self.failures.saturating_add(1);
        if self.failures.is_power_of_two() {
            Some(self.failures)
        } else {
            None
        }
    }

    /// It went well. Answers how often it had failed in a row, where it had.
    pub fn recover(&mut self) -> Option<u64>
        ensures failures { self.new.failures ≡ 0 }
        ensures logged { result ≡ missed self.old.failures }
    {
        let failures = self.failures;
        self.failures = 0;
        if failures > 0 { Some(failures) } else { None }
    }
}
