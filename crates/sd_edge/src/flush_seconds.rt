ghost use Rattle.std.specs.Prelude.{◌≡◌, ◌/◌, false, not, None, Some};
ghost use Rattle.sd_edge.specs.Seconds.{from_clock, last_second, next_second, stepped};

/// The Unix seconds of a run's flushes. Each flush has the clock's, unless an earlier one had that second or a later one, as where
/// the clock was set back: then it has the earlier one's and the interval's whole seconds, 1 at least. With an interval below a
/// second several flushes have one second.
#[derive(Clone, Copy, Debug, PartialEq, Eq)]
pub struct FlushSeconds {
    /// The interval's whole seconds.
    pub step: u64,
    /// The last flush's second, where there was one.
    pub last: Option<u64>,
    /// Whether that is ahead of the clock's.
    pub is_ahead: bool,
}

impl FlushSeconds {
    /// Those of a run whose flushes are so many milliseconds apart, of which none was made.
    pub fn every(interval_ms: u32) -> FlushSeconds
        ensures step { result.step ≡ interval_ms / 1000 }
        ensures none { result.last ≡ None }
        ensures not_ahead { result.is_ahead ≡ false }
    {
        FlushSeconds {
            step: u64::from(interval_ms) / 1_000,
            last: None,
            is_ahead: false,
        }
    }

    /// The second of the next flush, at which the clock shows this.
    pub fn next(&mut self, clock: u64) -> u64
        ensures second { result ≡ next_second self.old.step self.old.last self.old.is_ahead clock }
        ensures last { self.new.last ≡ Some result }
        ensures is_ahead { self.new.is_ahead ≡ not (from_clock self.old.step self.old.last self.old.is_ahead clock) }
        ensures step_stays { self.new.step ≡ self.old.step }
    {
        self.is_ahead = match self.last {
            None => false,
            Some(last) => { clock < last || (clock == last && (self.step > 0 || self.is_ahead)) }
        };
        let second = if self.is_ahead { self.stepped() } else { clock };
        self.last = Some(second);
        second
    }

    /// The second of a last flush, where the clock would show this at the next tick: one that no flush had or passed.
    pub fn last(&self, tick: u64) -> u64
        ensures { result ≡ last_second self.now.step self.now.last tick }
    {
        match self.last {
            Some(last) if tick <= last => self.stepped(),
            _ => tick,
        }
    }

    /// The last flush's second and the interval's whole seconds, 1 at least.
    fn stepped(&self) -> u64
        ensures { result ≡ stepped self.now.step self.now.last }
    {
        self.last.unwrap_or(0).saturating_add(self.step.max(1))
    }
}
