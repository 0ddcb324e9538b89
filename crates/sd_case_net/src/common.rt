ghost use Rattle.std.specs.Prelude.{◌≡◌, IfOk, vec_len};

use sd_case::Answer;
use sd_net::{DoorSizes, LongLines, Share, Sockets};
use sd_outside::{Address, Name, OpenRefusal};
use sd_socket::HandedOver;
use std::alloc::{AllocError, Global};
use std::io::{self, ErrorKind};
use std::net::SocketAddr;
use std::process;

/// A host of at most 255 bytes, and a port.
pub fn host_at(host: &[u8], port: u16) -> Address {
    let mut name = Name::new();
    let _ = name.try_extend_from_slice(host);
    Address::Host { host: name, port }
}

/// This machine, at a port; at 0 the system picks one.
pub fn here(port: u16) -> Address {
    host_at(b"127.0.0.1", port)
}

/// Where datagrams come to this machine, at a port; at 0 the system picks one.
pub fn datagrams_here(port: u16) -> Address {
    datagrams_at(b"127.0.0.1", port, 0)
}

/// Where datagrams come, at a host of at most 255 bytes, with a receive buffer of so many bytes.
pub fn datagrams_at(host: &[u8], port: u16, receive_buffer: u32) -> Address {
    let mut name = Name::new();
    let _ = name.try_extend_from_slice(host);
    Address::Datagrams {
        host: name,
        port,
        receive_buffer,
    }
}

/// Sockets of which none was handed over.
pub fn no_sockets(alloc: Global) -> Sockets {
    Sockets::new(HandedOver::none(alloc))
}

/// This machine as sockets of the case's own take it.
pub fn socket_here(port: u16) -> SocketAddr {
    SocketAddr::from(([127, 0, 0, 1], port))
}

/// What an opening answered.
pub fn opening_text(opened: Result<(), OpenRefusal>) -> &'static str {
    match opened {
        Ok(()) => "opened",
        Err(OpenRefusal::Failed) => "failed",
        Err(OpenRefusal::OutOfMemory) => "no memory",
    }
}

/// A buffer of so many bytes.
pub fn room(alloc: Global, size: usize) -> Result<Vec<u8>, AllocError>
    ensures { IfOk result (λ v. vec_len v ≡ size) }
{
    vec![in alloc; 0u8; size]
}

/// A name of a stop file that no other run has.
pub fn stop_name(rt: &HostRuntime) -> Result<String, AllocError> {
    let number = process::id(rt.process());
    format!(in rt.alloc(); "/tmp/sd_cases_net.{number}.stop")
}

/// That a case couldn't go on.
pub fn stuck() -> io::Error {
    io::Error::from(ErrorKind::NotConnected)
}

/// Begins the line of a step, whose answers follow, each behind a space.
pub fn step(out: &mut Answer, text: &str) {
    out.text("\n  ");
    out.text(text);
    out.text(":");
}

/// A door for 64 clients that gives long lines in pieces.
pub const SIZES: DoorSizes = DoorSizes {
    clients: 64,
    line: 1_024,
    long_lines: LongLines::Split,
    share: Share::Lines,
    replies: 1 << 20,
};
