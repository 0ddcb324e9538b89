use sd_timing::Stop;
use std::time::{Clock, Duration};

/// Whether an object is to stop, and has gone on for so many seconds since it first saw that.
pub(crate) fn has_drained(
    host: &impl Clock,
    stop: &Stop,
    saw_stop: &mut Option<Duration>,
    limit: u64,
) -> bool {
    if !stop.is_set() {
        return false;
    }
    let Ok(now) = host.monotonic() else {
        return false;
    };
    match *saw_stop {
        Some(since) => now.saturating_sub(since) >= Duration::from_secs(limit),
        None => {
            *saw_stop = Some(now);
            false
        }
    }
}
