use crate::pace::Pace;
use sd_outside::Clock;
use std::io;
use std::sync::OnceLock;
use std::time::{self, Duration};

/// How many nanoseconds a second has.
const NANOS: u64 = 1_000_000_000;

/// The clock of the system as it was when it was first asked, and from then on by the clock that is never set: what lies between two of
/// its seconds has passed. The last flush is told the second at which the next one would have been made: the flush before may have the
/// second that it is now.
#[derive(Drop)]
pub struct SystemClock<'a, R> {
    host: &'a R,
    pace: &'a Pace,
    /// By how many nanoseconds the system's clock was ahead of the one that is never set.
    ahead: OnceLock<u64>,
}

impl<'a, R> SystemClock<'a, R> {
    /// One that was asked nothing yet.
    pub fn new(host: &'a R, pace: &'a Pace) -> SystemClock<'a, R> {
        SystemClock {
            host,
            pace,
            ahead: OnceLock::new(),
        }
    }
}

/// A span in nanoseconds, which suffice for five centuries.
fn nanos(span: Duration) -> u64 {
    u64::try_from(span.as_nanos()).unwrap_or(u64::MAX)
}

impl<'a, R: time::Clock> SystemClock<'a, R> {
    /// By how many nanoseconds the system's clock is ahead of the one that is never set, or was when this was first asked.
    ///
    /// # Errors
    ///
    /// Those of the clocks.
    fn ahead(&self) -> io::Result<u64> {
        if let Some(ahead) = self.ahead.get() {
            return Ok(*ahead);
        }
        let clock = nanos(self.host.since_1970()?);
        let ahead = clock.saturating_sub(nanos(self.host.monotonic()?));
        // who asked earlier has set it
        let _ = self.ahead.try_set(ahead);
        Ok(self.ahead.get().copied().unwrap_or(ahead))
    }

    /// The time, in Unix seconds.
    ///
    /// # Errors
    ///
    /// Those of the clocks.
    fn second(&self) -> io::Result<u64> {
        let ahead = self.ahead()?;
        Ok(nanos(self.host.monotonic()?).saturating_add(ahead) / NANOS)
    }
}

impl<'a, R: time::Clock> Clock for SystemClock<'a, R> {
    ghost use Rattle.std.specs.Prelude.{⊤};

    ghost may_say = { λ clock now. ⊤ };

    /// 0 where the system doesn't tell the time.
    fn now(&self) -> u64 {
        self.second().unwrap_or(0)
    }

    fn last(&self) -> u64 {
        match self.pace.last_second() {
            Some(second) => second,
            None => self.now(),
        }
    }
}
