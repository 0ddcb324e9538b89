use std::io;
use std::time::{Clock, Duration};

/// The moment, in milliseconds of the clock that never goes back.
pub fn now(host: &impl Clock) -> io::Result<u64> {
    Ok(millis(host.monotonic()?))
}

/// A span in milliseconds.
pub fn millis(span: Duration) -> u64 {
    u64::try_from(span.as_millis()).unwrap_or(u64::MAX)
}
