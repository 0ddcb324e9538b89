ghost use Rattle.std.specs.Prelude.{◌≤◌};

use crate::call::{check, new_descriptor};
use crate::options::share;
use libc::net as c;
use std::io;
use std::net::{Net, SocketAddr, ToSocketAddrs, UdpSocket};
use std::os::fd::{AsRawFd, OwnedFd};

/// The most bytes of an address.
const MOST_BYTES: u32 = c::_SS_SIZE as u32;

/// Where several sockets for datagrams are bound, each of which gets all datagrams of some clients' sockets.
///
/// The system gives those of one client's socket to the same one of them, in the order in which they came, for as long as none is
/// bound there beside them and none is closed.
#[derive(Clone, Copy)]
pub struct SharedAddress {
    // as the system has it
    bytes: [u8; c::_SS_SIZE],
    len: u32,
    is_v6: bool,
    ghost within: { len ≤ 128 },
}

impl SharedAddress {
    /// A socket at the first address of a place that can be had, and that address, at which others may be bound from then on.
    ///
    /// It is bound alone, and shares its address only then, so that of two servers at one port the second is always refused.
    ///
    /// # Errors
    ///
    /// `AddrInUse` where the address is taken, by sockets that share it too, and those of the system and of looking up the place.
    pub fn bind_first<N: Net, A: ToSocketAddrs>(
        net: &N,
        place: A,
    ) -> io::Result<(UdpSocket, SharedAddress)> {
        let socket = UdpSocket::bind(net, place)?;
        share(&socket)?;
        let address = SharedAddress::of(&socket)?;
        Ok((socket, address))
    }

    /// One more socket at this address. The system lets only sockets of one user share it.
    ///
    /// # Errors
    ///
    /// `AddrInUse` where a socket is there that doesn't share it, and those of the system.
    pub fn bind<N: Net>(&self, _net: &N) -> io::Result<UdpSocket> {
        let socket = self.unbound()?;
        share(&socket)?;
        check(unsafe { c::bind(socket.as_raw_fd(), &self.bytes, self.len) })?;
        Ok(UdpSocket::from(socket))
    }

    /// Where a socket is bound.
    fn of(socket: &UdpSocket) -> io::Result<SharedAddress> {
        let is_v6 = matches!(socket.local_addr()?, SocketAddr::V6(_));
        let mut bytes = [0u8; c::_SS_SIZE];
        let mut len = MOST_BYTES;
        check(unsafe { c::getsockname(socket.as_raw_fd(), &mut bytes, &mut len) })?;
        let len = len.min(MOST_BYTES);
        Ok(SharedAddress { bytes, len, is_v6 })
    }

    /// A socket for datagrams of the address's family.
    fn unbound(&self) -> io::Result<OwnedFd> {
        let kind = c::SOCK_DGRAM | c::SOCK_CLOEXEC;
        new_descriptor(if self.is_v6 {
            unsafe { c::socket(c::AF_INET6, kind, 0) }
        } else {
            unsafe { c::socket(c::AF_INET, kind, 0) }
        })
    }
}
