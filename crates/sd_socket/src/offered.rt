ghost use Rattle.std.specs.Prelude.{◌↔◌, IsTrue};
ghost use Rattle.sd_socket.specs.Meeting.{Meets};
ghost use Rattle.sd_socket.specs.Handed.{Fits};

use std::io::ErrorKind;
use std::net::{SocketAddr, UdpSocket};
use std::os::fd::OwnedFd;

/// What a socket is for, and where it is bound.
#[derive(Clone, Copy, Debug)]
pub(crate) enum Offered {
    Datagrams(SocketAddr),
    Connections(SocketAddr),
}

/// Whether a socket at this address gets what is sent to that one.
fn meets(at: SocketAddr, wanted: SocketAddr) -> bool
    ensures { IsTrue result ↔ Meets at wanted }
{
    let (ip, wanted_ip) = (at.ip(), wanted.ip());
    at.port() == wanted.port()
        && (ip == wanted_ip || ip.is_unspecified() || wanted_ip.is_unspecified())
}

impl Offered {
    /// Whether it is one of those that are asked for.
    pub(crate) fn fits(self, wanted: Offered) -> bool
        ensures { IsTrue result ↔ Fits self wanted }
    {
        match (self, wanted) {
            (Offered::Datagrams(at), Offered::Datagrams(wanted)) => meets(at, wanted),
            (Offered::Connections(at), Offered::Connections(wanted)) => meets(at, wanted),
            (Offered::Datagrams(_), Offered::Connections(_))
            | (Offered::Connections(_), Offered::Datagrams(_)) => false,
        }
    }
}

/// What a descriptor is, where it is a socket for datagrams or one that listens for connections, over IPv4 or IPv6. From then on
/// its calls don't wait.
///
/// The system says so by what it answers where a byte is to be looked at: a socket for datagrams has one or has none yet, a
/// socket that listens isn't connected. A connection that somebody else took has a peer.
pub(crate) fn offered_by(fd: OwnedFd) -> (OwnedFd, Option<Offered>) {
    let socket = UdpSocket::from(fd);
    let offered = asked(&socket);
    (OwnedFd::from(socket), offered)
}

fn asked(socket: &UdpSocket) -> Option<Offered> {
    let at = socket.local_addr().ok()?;
    if socket.peer_addr().is_ok() {
        return None;
    }
    socket.set_nonblocking(true).ok()?;
    match socket.peek(&mut [0u8; 1]) {
        Ok(_) => Some(Offered::Datagrams(at)),
        Err(e) if e.kind() == ErrorKind::WouldBlock => Some(Offered::Datagrams(at)),
        Err(e) if e.kind() == ErrorKind::NotConnected => Some(Offered::Connections(at)),
        Err(_) => None,
    }
}
