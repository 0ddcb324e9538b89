ghost use Rattle.std.specs.Prelude.{◌≡◌, ◌≤◌, length};
ghost use Rattle.sd_outside.specs.Turns.{most_datagram};

use log::LevelFilter;
use sd_case::Answer;
use sd_case_net::{
    datagrams_at, datagrams_here, here, no_sockets, opening_text, room, socket_here, step,
    stop_name, stuck,
};
use sd_net::{RunLog, Stop, UdpReceiver};
use sd_outside::{Address, Datagrams, Name, Next, Opens};
use std::net::UdpSocket;
use std::{fs, io};

/// How many bytes a datagram has at most.
const MOST_DATAGRAM: usize = 65_527;

/// How often a receiver is asked before it is taken for one that gets nothing.
const MOST_TURNS: u32 = 50;

/// How many clients send at once.
const CLIENTS: usize = 32;

/// How many datagrams each of them sends.
const EACH: u8 = 4;

/// How many datagrams a receiver is asked for at most.
const MOST_DATAGRAMS: u32 = 1_000;

/// How many datagrams come while a stop file is there.
const BURST: u32 = 70;

/// Asks a receiver once.
pub(crate) fn ask(
    receiver: &mut UdpReceiver<'_, HostRuntime>,
    buf: &mut [u8],
    out: &mut Answer,
) -> Next
    requires { most_datagram ≤ length buf.old }
{
    let next = receiver.next(buf);
    match next {
        Next::Packet { len } => {
            out.text(" ");
            out.bytes(&buf[..len.min(64)]);
        }
        Next::End => out.text(" end"),
        Next::Idle => out.text(" nothing"),
        Next::Failed => out.text(" failed"),
    }
    next
}

/// Asks two receivers in turn until something came to one of them.
pub(crate) fn wait(
    first: &mut UdpReceiver<'_, HostRuntime>,
    second: &mut UdpReceiver<'_, HostRuntime>,
    buf: &mut [u8],
    out: &mut Answer,
)
    requires { most_datagram ≤ length buf.old }
{
    for _ in 0..MOST_TURNS {
        if shows_next(first, buf, out) || shows_next(second, buf, out) {
            return;
        }
    }
    out.text(" no datagram");
}

/// Asks a receiver once, and writes what came. Whether it was a datagram.
fn shows_next(receiver: &mut UdpReceiver<'_, HostRuntime>, buf: &mut [u8], out: &mut Answer) -> bool
    requires { most_datagram ≤ length buf.old }
    ensures { length buf.new ≡ length buf.old }
{
    let Next::Packet { len } = receiver.next(buf) else {
        return false;
    };
    out.text(" ");
    out.bytes(&buf[..len.min(64)]);
    true
}

/// A stop file that appears while no datagram comes, and one that is there while many come.
fn stop_files(rt: &HostRuntime, buf: &mut [u8], out: &mut Answer) -> io::Result<()>
    requires { most_datagram ≤ length buf.old }
{
    let name = stop_name(rt)?;
    let name = name.as_str();
    step(out, "a stop file that appears while no datagram comes");
    let sockets = no_sockets(rt.alloc());
    let stop = Stop::new(Some(stop_name(rt)?));
    let log = RunLog::new(rt, LevelFilter::Off);
    let mut receiver = UdpReceiver::new(rt, &sockets, &stop, &log);
    out.text(" ");
    out.text(opening_text(receiver.open_at(&datagrams_here(0))));
    ask(&mut receiver, buf, out);
    fs::write(rt, name, b"")?;
    ask(&mut receiver, buf, out);
    fs::remove_file(rt, name)?;
    step(
        out,
        "one that is there while 70 datagrams come, and no longer behind them",
    );
    let sockets = no_sockets(rt.alloc());
    let stop = Stop::new(Some(stop_name(rt)?));
    let mut receiver = UdpReceiver::new(rt, &sockets, &stop, &log);
    out.text(" ");
    out.text(opening_text(receiver.open_at(&datagrams_here(0))));
    ask(&mut receiver, buf, out);
    let port = receiver.port().ok_or_else(stuck)?;
    let sender = UdpSocket::bind(rt, socket_here(0))?;
    fs::write(rt, name, b"")?;
    let mut came = 0u64;
    for _ in 0..BURST {
        sender.send_to(b"a:1|c", socket_here(port))?;
        if let Next::Packet { len: _ } = receiver.next(buf) {
            came = came.saturating_add(1);
        }
    }
    fs::remove_file(rt, name)?;
    out.count(" came ", came);
    ask(&mut receiver, buf, out);
    Ok(())
}

/// Opens a receiver at addresses of every kind, and another beside it.
fn open_both(
    first: &mut UdpReceiver<'_, HostRuntime>,
    second: &mut UdpReceiver<'_, HostRuntime>,
    out: &mut Answer,
) {
    step(
        out,
        "a file, a place of another kind, a host with a byte 255, one with a byte 0, this machine, for the second a port that isn't asked for",
    );
    for at in [
        Address::File(Name::new()),
        here(0),
        datagrams_at(b"a\xffb", 0, 0),
        datagrams_at(b"a\0b", 0, 0),
        datagrams_here(0),
    ] {
        out.text(" ");
        out.text(opening_text(first.open_at(&at)));
    }
    out.text(" ");
    out.text(opening_text(second.open_at(&datagrams_here(1))));
}

/// What came to a receiver of each of the clients, whose datagrams have the client's number and their own.
#[derive(Drop)]
struct Heard {
    counts: [u8; CLIENTS],
    is_in_order: bool,
}

impl Heard {
    /// What comes to a receiver until it says that nothing does for now.
    fn all_of(receiver: &mut UdpReceiver<'_, HostRuntime>, buf: &mut [u8]) -> Heard
        requires { most_datagram ≤ length buf.old }
    {
        let mut heard = Heard {
            counts: [0; CLIENTS],
            is_in_order: true,
        };
        for _ in 0..MOST_DATAGRAMS {
            let Next::Packet { len } = receiver.next(buf) else {
                break;
            };
            heard.take(&buf[..len.min(2)]);
        }
        heard
    }

    fn take(&mut self, datagram: &[u8]) {
        let [client, number] = datagram else {
            self.is_in_order = false;
            return;
        };
        let Some(count) = self.counts.get_mut(usize::from(*client)) else {
            self.is_in_order = false;
            return;
        };
        self.is_in_order &= *number == *count;
        *count = count.saturating_add(1);
    }

    fn is_empty(&self) -> bool {
        self.counts.iter().all(|&count| count == 0)
    }
}

/// Datagrams of many clients' sockets, all of which one receiver gets of each, in order.
fn many_clients(
    rt: &HostRuntime,
    port: u16,
    first: &mut UdpReceiver<'_, HostRuntime>,
    second: &mut UdpReceiver<'_, HostRuntime>,
    buf: &mut [u8],
    out: &mut Answer,
) -> io::Result<()>
    requires { most_datagram ≤ length buf.old }
{
    step(
        out,
        "four datagrams of each of 32 clients: all of a client at one receiver, in order, and some at both",
    );
    let mut clients = Vec::new(rt.alloc());
    for _ in 0..CLIENTS {
        clients.push(UdpSocket::bind(rt, socket_here(0))?)?;
    }
    for number in 0..EACH {
        for (client, socket) in (0u8..).zip(&clients) {
            socket.send_to(&[client, number], socket_here(port))?;
        }
    }
    let (one, other) = (Heard::all_of(first, buf), Heard::all_of(second, buf));
    let whole = one.counts.iter().zip(&other.counts).all(|(&one, &other)| (one, other) == (EACH, 0)
        || (one, other) == (0, EACH));
    out.text(" ");
    out.yes_or_no(whole && one.is_in_order && other.is_in_order);
    out.text(" ");
    out.yes_or_no(!one.is_empty() && !other.is_empty());
    Ok(())
}

/// A receiver of another server, which asks for the port that two receivers have.
fn another_server(rt: &HostRuntime, port: u16, out: &mut Answer) {
    step(out, "another server's receiver at that port");
    let sockets = no_sockets(rt.alloc());
    let stop = Stop::new(None);
    let log = RunLog::new(rt, LevelFilter::Off);
    let mut receiver = UdpReceiver::new(rt, &sockets, &stop, &log);
    out.text(" ");
    out.text(opening_text(receiver.open_at(&datagrams_here(port))));
}

/// Two receivers, of which each asks for a receive buffer.
fn receive_buffers(rt: &HostRuntime, out: &mut Answer) {
    step(
        out,
        "receive buffers for 100,000 and 10,000 bytes, of which the system gives twice as much",
    );
    let sockets = no_sockets(rt.alloc());
    let stop = Stop::new(None);
    for bytes in [100_000, 10_000] {
        let log = RunLog::new(rt, LevelFilter::Off);
        let mut receiver = UdpReceiver::new(rt, &sockets, &stop, &log);
        out.text(" ");
        out.text(opening_text(receiver.open_at(&datagrams_at(b"127.0.0.1", 0, bytes))));
        let given = receiver.receive_buffer().unwrap_or(0);
        out.count(" ", u64::from(given));
    }
}

/// Two receivers at one port, and stop files.
pub(crate) fn run(rt: &HostRuntime, out: &mut Answer) -> io::Result<()> {
    let mut buf = room(rt.alloc(), MOST_DATAGRAM)?;
    let sockets = no_sockets(rt.alloc());
    let stop = Stop::new(None);
    let log = RunLog::new(rt, LevelFilter::Off);
    let mut first = UdpReceiver::new(rt, &sockets, &stop, &log);
    let mut second = UdpReceiver::new(rt, &sockets, &stop, &log);
    out.text("receivers");
    step(out, "one that isn't open");
    ask(&mut first, buf.as_mut_slice(), out);
    open_both(&mut first, &mut second, out);
    let port = first.port().ok_or_else(stuck)?;
    another_server(rt, port, out);
    let sender = UdpSocket::bind(rt, socket_here(0))?;
    step(out, "two datagrams, one of them empty");
    sender.send_to(b"gorets:1|c", socket_here(port))?;
    wait(&mut first, &mut second, buf.as_mut_slice(), out);
    sender.send_to(b"", socket_here(port))?;
    wait(&mut first, &mut second, buf.as_mut_slice(), out);
    step(out, "none");
    ask(&mut first, buf.as_mut_slice(), out);
    ask(&mut second, buf.as_mut_slice(), out);
    many_clients(rt, port, &mut first, &mut second, buf.as_mut_slice(), out)?;
    step(out, "two datagrams that came before the stop");
    sender.send_to(b"a:1|c", socket_here(port))?;
    sender.send_to(b"b:2|c", socket_here(port))?;
    stop.set();
    wait(&mut first, &mut second, buf.as_mut_slice(), out);
    wait(&mut first, &mut second, buf.as_mut_slice(), out);
    ask(&mut first, buf.as_mut_slice(), out);
    ask(&mut second, buf.as_mut_slice(), out);
    out.count("; faults ", first.faults());
    out.count(" and ", second.faults());
    receive_buffers(rt, out);
    stop_files(rt, buf.as_mut_slice(), out)
}
