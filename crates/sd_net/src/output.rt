use sd_edge::{TimeLimit, text_limit};
use sd_socket::{most_of_output, waits_for_output};
use sd_timing::{Pace, Stop, now};
use std::fs::Files;
use std::io::{self, ErrorKind};
use std::sync::OnceLock;
use std::sync::atomic::{AtomicBool, AtomicUsize, Ordering};
use std::time::{Clock, Duration};

/// How long behind a stop totals may wait for who reads standard output, in milliseconds.
const TOTALS_MS: u64 = 9_000;

/// Which of its texts a server or a proxy writes to standard output.
#[derive(Clone, Copy, Debug, PartialEq, Eq)]
pub enum Text {
    /// That of a flush.
    Flush,
    /// Its totals, at its end.
    Totals,
}

/// Who reads standard output, for those that write to it. A text of a flush waits for a part of the interval, and where that didn't
/// help, no further one waits before something was taken again. Totals wait until a stop is to end. What isn't part of a run waits
/// as long as it takes.
#[derive(Drop)]
pub struct Output {
    is_stuck: AtomicBool,
    // how much it takes without being asked again
    room_left: AtomicUsize,
    totals_since: OnceLock<u64>,
}

impl Output {
    pub fn new() -> Output {
        Output {
            is_stuck: AtomicBool::new(false),
            room_left: AtomicUsize::new(0),
            totals_since: OnceLock::new(),
        }
    }

    /// Waits until standard output takes bytes of a piece that has so many, and answers how many it takes at once.
    ///
    /// # Errors
    ///
    /// `TimedOut` where it took none within the text's limit, and those of the system and the clock.
    pub fn room<R: Clock + Files>(
        &self,
        host: &R,
        stop: &Stop,
        pace: &Pace,
        text: Text,
        len: usize,
    ) -> io::Result<usize> {
        let Some(interval) = pace.interval() else {
            return Ok(usize::MAX);
        };
        let left = self.room_left.load(Ordering::SeqCst);
        if len <= left {
            return Ok(left);
        }
        let end = match text {
            Text::Flush => self.flush_end(now(host)?, interval),
            Text::Totals => self.totals_end(now(host)?, stop.seen_at(host)),
        };
        if !is_ready_by(host, end)? {
            self.is_stuck.store(true, Ordering::SeqCst);
            return Err(io::Error::from(ErrorKind::TimedOut));
        }
        let room = most_of_output();
        self.is_stuck.store(false, Ordering::SeqCst);
        self.room_left.store(room, Ordering::SeqCst);
        Ok(room)
    }

    /// Standard output took so many bytes.
    pub fn took(&self, count: usize) {
        let left = self.room_left.load(Ordering::SeqCst);
        self.room_left
            .store(left.saturating_sub(count), Ordering::SeqCst);
    }

    fn flush_end(&self, now: u64, interval: u32) -> TimeLimit {
        if self.is_stuck.load(Ordering::SeqCst) {
            TimeLimit { end: now }
        } else {
            TimeLimit::after(now, text_limit(interval))
        }
    }

    fn totals_end(&self, now: u64, stop: Option<u64>) -> TimeLimit {
        if self.totals_since.get().is_none() {
            let _ = self.totals_since.try_set(stop.unwrap_or(now));
        }
        let since = *self.totals_since.get().unwrap_or(&now);
        TimeLimit::after(since, TOTALS_MS)
    }
}

/// Waits until standard output takes bytes, or a limit is past, and answers whether it takes some. It is asked once at least.
///
/// # Errors
///
/// Those of the system and the clock.
fn is_ready_by(host: &impl Clock, end: TimeLimit) -> io::Result<bool> {
    for _ in 0..u64::MAX {
        let left = end.left(now(host)?);
        match waits_for_output(Duration::from_millis(left.unwrap_or(0))) {
            Ok(true) => return Ok(true),
            Ok(false) if left.is_none() => break,
            Ok(false) => {}
            Err(e) if e.kind() == ErrorKind::Interrupted => {}
            Err(e) => return Err(e),
        }
    }
    Ok(false)
}
