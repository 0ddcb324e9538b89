use crate::moments::now;
use crate::stop::Stop;
use sd_edge::{Delivery, TimeLimit};
use std::fs::Files;
use std::io::{self, ErrorKind};
use std::time::{Clock, Duration};

/// How long a call of the system waits at most before the stop is looked at again, in milliseconds.
const SLICE_MS: u64 = 100;

/// A delivery that is under way, the clock that it goes by, and the stop that makes it shorter.
#[derive(Drop)]
pub struct Waiting<'a, R> {
    host: &'a R,
    stop: &'a Stop,
    delivery: Delivery,
}

impl<'a, R: Clock + Files> Waiting<'a, R> {
    /// One that begins now, and takes so many milliseconds at most.
    ///
    /// # Errors
    ///
    /// Those of the clock.
    pub fn begin(host: &'a R, stop: &'a Stop, limit: u64) -> io::Result<Waiting<'a, R>> {
        let began = now(host)?;
        Ok(Waiting {
            host,
            stop,
            delivery: Delivery { began, limit },
        })
    }

    /// Up to when it may take, where a stop that has come by now is heeded.
    fn end(&self) -> TimeLimit {
        self.delivery.ends(self.stop.seen_at(self.host))
    }

    /// How many milliseconds are left.
    ///
    /// # Errors
    ///
    /// `TimedOut` where nothing is left, and those of the clock.
    pub fn left(&self) -> io::Result<u64> {
        self.left_until(self.end())
    }

    /// How many milliseconds are left, also of this limit.
    ///
    /// # Errors
    ///
    /// `TimedOut` where nothing is left, and those of the clock.
    pub fn left_until(&self, limit: TimeLimit) -> io::Result<u64> {
        let left = self.end().and(limit).left(now(self.host)?);
        left.ok_or(io::Error::from(ErrorKind::TimedOut))
    }

    /// How many milliseconds each of several tries has of what is left.
    ///
    /// # Errors
    ///
    /// `TimedOut` where nothing is left, and those of the clock.
    pub fn share(&self, tries: usize) -> io::Result<u64> {
        let share = self.end().share(now(self.host)?, tries);
        share.ok_or(io::Error::from(ErrorKind::TimedOut))
    }

    /// So many milliseconds from now on.
    ///
    /// # Errors
    ///
    /// Those of the clock.
    pub fn since_now(&self, span: u64) -> io::Result<TimeLimit> {
        Ok(TimeLimit::after(now(self.host)?, span))
    }
}

/// How long a call may wait before it is asked again what is left, where so many milliseconds are.
pub fn slice(left: u64) -> Duration {
    Duration::from_millis(left.min(SLICE_MS))
}
