ghost use Rattle.std.specs.Prelude.{◌≤◌, length};
ghost use Rattle.sd_outside.specs.Turns.{most_datagram};

use crate::receivers::{ask, wait};
use log::LevelFilter;
use sd_case::Answer;
use sd_case_net::{SIZES, client_of, datagrams_here, here, opening_text, room, socket_here, step};
use sd_net::{RunLog, Sockets, Stop, TcpDoor, UdpReceiver};
use sd_outside::Opens;
use sd_socket::{HandedOver, SharedAddress};
use std::io;
use std::net::{TcpListener, UdpSocket};
use std::os::fd::OwnedFd;

/// How many bytes a datagram has at most.
const MOST_DATAGRAM: usize = 65_527;

/// Two sockets for datagrams at one port, as another process would hand them over, and that port.
fn handed_pair(rt: &HostRuntime) -> io::Result<(HandedOver, u16)> {
    let (first, shared) = SharedAddress::bind_first(rt, socket_here(0))?;
    let port = first.local_addr()?.port();
    let second = shared.bind(rt)?;
    let mut handed = HandedOver::none(rt.alloc());
    handed.add(OwnedFd::from(first))?;
    handed.add(OwnedFd::from(second))?;
    Ok((handed, port))
}

/// Opens a receiver where datagrams come to a port.
fn open(receiver: &mut UdpReceiver<'_, HostRuntime>, port: u16, out: &mut Answer) {
    out.text(" ");
    out.text(opening_text(receiver.open_at(&datagrams_here(port))));
}

/// Three receivers where two sockets were handed over.
fn fewer_sockets(rt: &HostRuntime, buf: &mut [u8], out: &mut Answer) -> io::Result<()>
    requires { most_datagram ≤ length buf.old }
{
    step(
        out,
        "three receivers and two sockets, in which a datagram waits, and one more",
    );
    let (handed, port) = handed_pair(rt)?;
    let sender = UdpSocket::bind(rt, socket_here(0))?;
    sender.send_to(b"waits:1|c", socket_here(port))?;
    let sockets = Sockets::new(handed);
    let stop = Stop::new(None);
    let log = RunLog::new(rt, LevelFilter::Off);
    let mut first = UdpReceiver::new(rt, &sockets, &stop, &log);
    let mut second = UdpReceiver::new(rt, &sockets, &stop, &log);
    let mut third = UdpReceiver::new(rt, &sockets, &stop, &log);
    open(&mut first, port, out);
    open(&mut second, port, out);
    open(&mut third, port, out);
    wait(&mut first, &mut second, buf, out);
    sender.send_to(b"more:1|c", socket_here(port))?;
    wait(&mut first, &mut second, buf, out);
    Ok(())
}

/// What one receiver says that was opened at a port, where more was handed over than it takes.
fn say_one(rt: &HostRuntime, handed: HandedOver, port: u16, buf: &mut [u8], out: &mut Answer)
    requires { most_datagram ≤ length buf.old }
{
    let sockets = Sockets::new(handed);
    let stop = Stop::new(None);
    let log = RunLog::new(rt, LevelFilter::Off);
    let mut receiver = UdpReceiver::new(rt, &sockets, &stop, &log);
    open(&mut receiver, port, out);
    ask(&mut receiver, buf, out);
    out.text(if stop.is_set() {
        ", all stop"
    } else {
        ", all go on"
    });
}

/// One receiver where two sockets were handed over, and where one was that is none of its own.
fn more_sockets(rt: &HostRuntime, buf: &mut [u8], out: &mut Answer) -> io::Result<()>
    requires { most_datagram ≤ length buf.old }
{
    step(out, "one receiver and two sockets");
    let (handed, port) = handed_pair(rt)?;
    say_one(rt, handed, port, buf, out);
    step(out, "one receiver at another port");
    let (handed, _) = handed_pair(rt)?;
    say_one(rt, handed, 0, buf, out);
    step(out, "one receiver and a client's connection");
    let listener = TcpListener::bind(rt, socket_here(0))?;
    let connection = client_of(rt, listener.local_addr()?.port())?;
    let mut handed = HandedOver::none(rt.alloc());
    handed.add(OwnedFd::from(connection))?;
    say_one(rt, handed, 0, buf, out);
    Ok(())
}

/// A door where a socket that listens was handed over.
fn listeners(rt: &HostRuntime, out: &mut Answer) -> io::Result<()> {
    step(
        out,
        "doors at the port of a socket that listens, one after the other, and whether one has it",
    );
    let listener = TcpListener::bind(rt, socket_here(0))?;
    let port = listener.local_addr()?.port();
    let mut handed = HandedOver::none(rt.alloc());
    handed.add(OwnedFd::from(listener))?;
    let sockets = Sockets::new(handed);
    let stop = Stop::new(None);
    let log = RunLog::new(rt, LevelFilter::Off);
    let mut first = TcpDoor::new(rt, rt.alloc(), &sockets, &stop, SIZES, &log);
    let mut second = TcpDoor::new(rt, rt.alloc(), &sockets, &stop, SIZES, &log);
    out.text(" ");
    out.text(opening_text(first.open_at(&here(port))));
    out.text(" ");
    out.text(opening_text(second.open_at(&here(port))));
    out.text(" ");
    out.yes_or_no(first.port() == Some(port) && !sockets.has_untaken());
    Ok(())
}

/// Sockets that were handed over.
pub(crate) fn run(rt: &HostRuntime, out: &mut Answer) -> io::Result<()> {
    let mut buf = room(rt.alloc(), MOST_DATAGRAM)?;
    out.text("\nsockets that were handed over");
    fewer_sockets(rt, buf.as_mut_slice(), out)?;
    more_sockets(rt, buf.as_mut_slice(), out)?;
    listeners(rt, out)
}
