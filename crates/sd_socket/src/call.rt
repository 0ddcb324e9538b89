ghost use Rattle.std.specs.Prelude.{◌↔◌, pos, ◌≤ℤ◌, IsOk};

use os::FromRawFd;
use std::io::{self, Error};
use std::os::fd::OwnedFd;

/// The error of the call that has just answered a negative number.
pub(crate) fn check(answer: i32) -> io::Result<()>
    ensures { IsOk result ↔ (pos 0 ≤ℤ answer) }
{
    if answer < 0 {
        Err(Error::from_raw_os_error(os::errno()))
    } else {
        Ok(())
    }
}

/// The descriptor that the call has just made which answered this. Nobody else has it.
pub(crate) fn new_descriptor(answer: i32) -> io::Result<OwnedFd>
    ensures { IsOk result ↔ (pos 0 ≤ℤ answer) }
{
    check(answer)?;
    Ok(unsafe { OwnedFd::from_raw_fd(answer) })
}

/// Another descriptor of what this one is open on. It has a number of its own, which nobody else has.
pub(crate) fn duplicate(number: i32) -> io::Result<OwnedFd> {
    new_descriptor(os::duplicate(number))
}
