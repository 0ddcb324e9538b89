ghost use Rattle.std.specs.Prelude.{◌≡◌, ◌+◌, ◌≤◌, ◌<◌, ◌^◌};
ghost use Rattle.sd_edge.specs.Ticks.{due_behind, first_wait, next_wait, span, until_multiple};
ghost use Rattle.sd_edge.specs.Times.{shown};

/// When the ticks of a beat are due, in milliseconds of a clock that never goes back: at whole intervals from a start on, or where
/// another clock, the system's, is at a multiple of the interval.
#[derive(Clone, Copy, Debug, PartialEq, Eq)]
pub struct TickTimes {
    /// How far ticks are apart: 1 at least.
    pub interval: u64,
    /// When the next one is due.
    pub due: u64,
    ghost some: { 1 ≤ interval },
    ghost small: { interval < 2 ^ 32 },
}

/// How long it is until a clock is next at a multiple of an interval.
fn until_multiple(interval: u64, clock: u64) -> u64
    requires { 1 ≤ interval }
    ensures left { result ≡ until_multiple interval clock }
    ensures some { 1 ≤ result }
    ensures most { result ≤ interval }
{
    interval - clock % interval
}

impl TickTimes {
    /// Those of a start at this moment: the first tick is due one interval behind it.
    pub fn from_start(interval_ms: u32, now: u64) -> TickTimes
        ensures interval { result.interval ≡ span interval_ms }
        ensures due { result.due ≡ shown (now + span interval_ms) }
    {
        let interval = u64::from(interval_ms.max(1));
        TickTimes {
            interval,
            due: now.saturating_add(interval),
        }
    }

    /// Those of a start at this moment, at which the system's clock shows this: the first tick is due one interval behind it at
    /// least, where that clock is at a multiple of the interval.
    pub fn aligned(interval_ms: u32, now: u64, clock: u64) -> TickTimes
        ensures interval { result.interval ≡ span interval_ms }
        ensures due { result.due ≡ shown (now + first_wait (span interval_ms) clock) }
    {
        let interval = u64::from(interval_ms.max(1));
        TickTimes {
            interval,
            due: now.saturating_add(interval + until_multiple(interval, clock) % interval),
        }
    }

    /// The tick was given that is due by this moment. The next one is due at the first whole interval behind it that isn't past.
    pub fn pass(&mut self, now: u64)
        ensures interval { self.new.interval ≡ self.old.interval }
        ensures due { self.new.due ≡ due_behind self.old.interval self.old.due now }
    {
        let missed = now.saturating_sub(self.due) / self.interval;
        self.due = self
            .due
            .saturating_add(missed.saturating_add(1).saturating_mul(self.interval));
    }

    /// The same, where the system's clock shows this: the next one is due where that clock is at a multiple of the interval, half an
    /// interval later at least.
    pub fn pass_aligned(&mut self, now: u64, clock: u64)
        ensures interval { self.new.interval ≡ self.old.interval }
        ensures due { self.new.due ≡ shown (now + next_wait self.old.interval clock) }
    {
        let rest = until_multiple(self.interval, clock);
        let wait = if 2 * rest < self.interval {
            rest + self.interval
        } else {
            rest
        };
        self.due = now.saturating_add(wait);
    }
}
