use crate::call::check;
use libc::net as c;
use libc::types::pollfd;
use std::io;
use std::time::Duration;

/// The number of standard output.
const OUTPUT: i32 = 1;

/// That of standard error.
const ERRORS: i32 = 2;

/// How many bytes of those that are written at once standard output takes without waiting, once it says that it takes some: what a
/// pipe takes whole (POSIX's `PIPE_BUF`, as Linux has it).
const MOST_AT_ONCE: usize = 4_096;

/// The same of a terminal, whose room grows by so many bytes and which may make two of a newline.
const MOST_OF_TERMINAL: usize = 128;

/// Waits until a descriptor takes bytes, or has failed, for so long at most. Whether that came.
///
/// # Errors
///
/// Those of the system, as where a signal ended the wait.
fn waits_for(descriptor: i32, limit: Duration) -> io::Result<bool> {
    let mut asked = [pollfd {
        fd: descriptor,
        events: c::POLLOUT,
        revents: 0,
    }];
    let most = i32::MAX.unsigned_abs();
    let limit = u32::try_from(limit.as_millis()).unwrap_or(most).min(most);
    let count = c::poll(&mut asked, limit.cast_signed());
    check(count)?;
    Ok(count > 0)
}

/// Waits until standard output takes bytes, or has failed, for so long at most. Whether that came.
///
/// # Errors
///
/// Those of the system, as where a signal ended the wait.
pub fn waits_for_output(limit: Duration) -> io::Result<bool> {
    waits_for(OUTPUT, limit)
}

/// Whether standard error takes a line at once, or has failed.
pub fn takes_errors() -> bool {
    matches!(waits_for(ERRORS, Duration::ZERO), Ok(true))
}

/// How many bytes are written to standard output at once, so that it takes them without waiting once it takes any.
pub fn most_of_output() -> usize {
    if libc::isatty(OUTPUT) == 1 {
        MOST_OF_TERMINAL
    } else {
        MOST_AT_ONCE
    }
}
