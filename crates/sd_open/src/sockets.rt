use sd_socket::{HandedOver, SharedAddress, ask_receive_buffer};
use std::io;
use std::net::{Net, TcpListener, TcpStream, ToSocketAddrs, UdpSocket};
use std::sync::OnceLock;

/// What the receivers and the doors of a program share of their sockets: those that were handed over by what started it, and
/// where the first receiver bound one of its own.
#[derive(Drop)]
pub struct Sockets {
    handed: HandedOver,
    shared: OnceLock<SharedAddress>,
}

impl Sockets {
    /// These were handed over, and none is bound yet.
    pub fn new(handed: HandedOver) -> Sockets {
        Sockets {
            handed,
            shared: OnceLock::new(),
        }
    }

    /// Whether something was handed over that nobody took.
    pub fn has_untaken(&self) -> bool {
        self.handed.has_untaken()
    }

    /// A socket for the datagrams that come to a place: the next of those that were handed over for it, with the receive buffer that
    /// it has. Where none was, one that is bound there, with a receive buffer of so many bytes, unless that is 0; the first is
    /// bound alone, and each other beside it.
    ///
    /// # Errors
    ///
    /// `AddrInUse` where each that was handed over for the place is taken: none of another user can be bound beside it. Those of the
    /// system and of looking up the place.
    pub fn datagrams_at<R: Net>(
        &self,
        host: &R,
        place: (&str, u16),
        receive_buffer: u32,
    ) -> io::Result<UdpSocket> {
        if let Some(socket) = self.handed_datagrams(host, place)? {
            return Ok(socket);
        }
        let socket = self.own_datagrams(host, place)?;
        if receive_buffer > 0 {
            ask_receive_buffer(&socket, receive_buffer)?;
        }
        Ok(socket)
    }

    fn handed_datagrams<R: Net>(
        &self,
        host: &R,
        place: (&str, u16),
    ) -> io::Result<Option<UdpSocket>> {
        if self.handed.is_empty() {
            return Ok(None);
        }
        for at in place.to_socket_addrs(host)? {
            if let Some(socket) = self.handed.take_datagrams(at)? {
                return Ok(Some(socket));
            }
        }
        Ok(None)
    }

    fn own_datagrams<R: Net>(&self, host: &R, place: (&str, u16)) -> io::Result<UdpSocket> {
        if let Some(shared) = self.shared.get() {
            return shared.bind(host);
        }
        let (socket, shared) = SharedAddress::bind_first(host, place)?;
        match self.shared.try_set(shared) {
            Ok(_) => Ok(socket),
            // another receiver bound one just now
            Err(_) => Err(io::Error::from(io::ErrorKind::AddrInUse)),
        }
    }

    /// A socket that listens for connections to a place: one that was handed over for it, or else one that is bound there. It
    /// doesn't wait.
    ///
    /// # Errors
    ///
    /// Those of the system and of looking up the place, such as `AddrInUse`.
    pub fn listener_at<R: Net<Listener = TcpListener, Stream = TcpStream>>(
        &self,
        host: &R,
        place: (&str, u16),
    ) -> io::Result<TcpListener> {
        let listener = match self.handed_listener(host, place)? {
            Some(listener) => listener,
            None => TcpListener::bind(host, place)?,
        };
        listener.set_nonblocking(true)?;
        Ok(listener)
    }

    fn handed_listener<R: Net>(
        &self,
        host: &R,
        place: (&str, u16),
    ) -> io::Result<Option<TcpListener>> {
        if self.handed.is_empty() {
            return Ok(None);
        }
        for at in place.to_socket_addrs(host)? {
            if let Some(listener) = self.handed.take_listener(at)? {
                return Ok(Some(listener));
            }
        }
        Ok(None)
    }
}
