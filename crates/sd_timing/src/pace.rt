use sd_edge::delivery_limit;
use std::sync::atomic::{AtomicU64, Ordering};

/// What the parts of a run share of its flushes: how far they are apart, once its beat was started, and which second the last one has
/// that no tick makes, once there was a tick or the beat has ended.
#[derive(Drop)]
pub struct Pace {
    // in milliseconds, and 0 before the start
    interval: AtomicU64,
    // 0 where none was told
    last_second: AtomicU64,
}

impl Pace {
    /// That of a run that hasn't started.
    pub fn new() -> Pace {
        Pace {
            interval: AtomicU64::new(0),
            last_second: AtomicU64::new(0),
        }
    }

    /// Flushes are so many milliseconds apart from now on.
    pub fn start(&self, interval_ms: u32) {
        self.interval
            .store(u64::from(interval_ms.max(1)), Ordering::SeqCst);
    }

    /// How many milliseconds flushes are apart, once the run has started.
    pub fn interval(&self) -> Option<u32> {
        match self.interval.load(Ordering::SeqCst) {
            0 => None,
            interval => Some(u32::try_from(interval).unwrap_or(u32::MAX)),
        }
    }

    /// How long one delivery may take, in milliseconds.
    pub fn delivery_limit(&self) -> u64 {
        delivery_limit(self.interval().unwrap_or(0))
    }

    /// The last flush has this second where no tick comes any more.
    pub fn expect_last(&self, second: u64) {
        self.last_second.store(second, Ordering::SeqCst);
    }

    /// The second of the last flush, where one was told.
    pub(crate) fn last_second(&self) -> Option<u64> {
        match self.last_second.load(Ordering::SeqCst) {
            0 => None,
            second => Some(second),
        }
    }
}
