use crate::common::socket_here;
use sd_case::Answer;
use std::io::{self, Read};
use std::net::TcpStream;
use std::time::Duration;

/// How long a client waits for what it is told, in seconds.
const PATIENCE: u64 = 10;

/// A client that is connected to a port of this machine.
pub fn client_of(rt: &HostRuntime, port: u16) -> io::Result<TcpStream> {
    let stream = TcpStream::connect(rt, socket_here(port))?;
    stream.set_read_timeout(Some(Duration::from_secs(PATIENCE)))?;
    Ok(stream)
}

/// Reads what came next on a connection, or that it was closed.
pub fn show_next(stream: &mut TcpStream, buf: &mut [u8], out: &mut Answer) {
    match stream.read(buf) {
        Ok(0) => out.text(" closed"),
        Ok(len) => {
            out.text(" ");
            out.bytes(&buf[..len]);
        }
        Err(_) => out.text(" broken off"),
    }
}
