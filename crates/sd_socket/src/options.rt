ghost use Rattle.std.specs.Prelude.{◌≡◌, ◌<◌, ◌^◌, ◌++◌, replicate};
ghost use Rattle.std.specs.Int.{w32, to_le_bytes};

use crate::call::check;
use libc::net as c;
use std::io;
use std::net::UdpSocket;
use std::os::fd::AsRawFd;

/// An option's value as the C library takes it: a C `int` in its first four bytes.
type Value = [u8; 16];

/// How many bytes of a value a C `int` has.
const INT: u32 = 4;

/// The value that is this number.
fn value_of(number: u32) -> Value
    ensures { result ≡ to_le_bytes w32 number ++ replicate 12 0 }
{
    let [a, b, c, d] = number.to_ne_bytes();
    [a, b, c, d, 0, 0, 0, 0, 0, 0, 0, 0, 0, 0, 0, 0]
}

/// Lets other sockets of this user be bound at the socket's address, where they let it too.
pub(crate) fn share(socket: &impl AsRawFd) -> io::Result<()> {
    let fd = socket.as_raw_fd();
    check(unsafe { c::setsockopt(fd, c::SOL_SOCKET, c::SO_REUSEPORT, &value_of(1), INT) })
}

/// Asks the system for a receive buffer of so many bytes. It gives twice as much, for what it notes of each datagram, and less
/// where its own limit is lower, which isn't an error: `receive_buffer` says how much there is.
///
/// # Errors
///
/// Those of the system, which has none for a socket that is open.
pub fn ask_receive_buffer(socket: &UdpSocket, bytes: u32) -> io::Result<()> {
    let fd = socket.as_raw_fd();
    let value = value_of(bytes.min(i32::MAX.unsigned_abs()));
    check(unsafe { c::setsockopt(fd, c::SOL_SOCKET, c::SO_RCVBUF, &value, INT) })
}

/// How many bytes the socket's receive buffer has by the system's count, with what the system notes of each datagram.
///
/// # Errors
///
/// Those of the system, which has none for a socket that is open.
pub fn receive_buffer(socket: &UdpSocket) -> io::Result<u32> {
    let fd = socket.as_raw_fd();
    let mut value: Value = [0; 16];
    let mut len = INT;
    check(unsafe { c::getsockopt(fd, c::SOL_SOCKET, c::SO_RCVBUF, &mut value, &mut len) })?;
    Ok(u32::from_ne_bytes([value[0], value[1], value[2], value[3]]))
}
