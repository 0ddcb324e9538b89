use arrayvec::ArrayVec;
use log::LevelFilter;
use sd_case::Answer;
use sd_case_net::{here, host_at, opening_text, room, show_next, socket_here, step};
use sd_net::{GraphiteLink, Pace, RunLog, Stop};
use sd_outside::{Address, Backend, Failed, Name, Opens, write_all};
use std::io::{self, Read};
use std::net::TcpListener;
use std::thread::{Threads, join};

/// What a client was told.
type Heard = ArrayVec<u8, 64>;

/// What a call answered.
fn call_text(called: Result<(), Failed>) -> &'static str {
    match called {
        Ok(()) => " well",
        Err(Failed) => " failed",
    }
}

/// Gives a text over a link, in a round of its own: begin, write, finish.
fn round<X: Threads + Sync>(link: &mut GraphiteLink<'_, X>, text: &[u8], out: &mut Answer) {
    out.text(call_text(link.begin()));
    out.text(call_text(write_all(link, text)));
    out.text(call_text(link.finish()));
}

/// What the next client of a listener is told up to its end, of which at most 64 bytes are kept. Then its connection is closed.
fn hear(listener: &TcpListener) -> io::Result<Heard> {
    let (mut stream, _) = listener.accept()?;
    let mut heard = Heard::new();
    let mut chunk = [0u8; 64];
    for _ in 0..u64::MAX {
        let count = stream.read(&mut chunk)?;
        if count == 0 {
            break;
        }
        for &byte in &chunk[..count] {
            let _ = heard.try_push(byte);
        }
    }
    Ok(heard)
}

/// A round over a link to a listener that reads all, and then ends its side.
fn heard_round<X: Threads + Sync>(
    threads: &X,
    link: &mut GraphiteLink<'_, X>,
    listener: &TcpListener,
    text: &[u8],
    out: &mut Answer,
) -> io::Result<()> {
    let (heard, ()) = join(threads, || hear(listener), || round(link, text, out));
    out.text(" ");
    out.bytes(heard?.as_slice());
    Ok(())
}

/// Rounds over a link to a listener, one of which isn't finished.
fn rounds<X: Threads + Sync>(
    threads: &X,
    link: &mut GraphiteLink<'_, X>,
    listener: &TcpListener,
    buf: &mut [u8],
    out: &mut Answer,
) -> io::Result<()> {
    step(out, "a round");
    heard_round(threads, link, listener, b"a 1 2\nb 3 4\n", out)?;
    step(out, "a round that isn't finished, and the next");
    out.text(call_text(link.begin()));
    out.text(call_text(write_all(link, b"c 5 6\n")));
    heard_after(threads, link, listener, buf, out)?;
    out.count("; faults ", link.faults());
    Ok(())
}

/// A round behind one that isn't finished, whose client is told nothing.
fn heard_after<X: Threads + Sync>(
    threads: &X,
    link: &mut GraphiteLink<'_, X>,
    listener: &TcpListener,
    buf: &mut [u8],
    out: &mut Answer,
) -> io::Result<()> {
    let (mut unfinished, _) = listener.accept()?;
    heard_round(threads, link, listener, b"d 7 8\n", out)?;
    show_next(&mut unfinished, buf, out);
    Ok(())
}

/// Rounds over a link to a listener that closes a connection at once, that doesn't end its side, and to a port where nobody listens
/// any more.
fn lost_rounds<X: Threads + Sync>(
    link: &mut GraphiteLink<'_, X>,
    listener: TcpListener,
    out: &mut Answer,
) -> io::Result<()> {
    step(out, "a listener that closes at once: begin, write, finish");
    out.text(call_text(link.begin()));
    drop(listener.accept()?);
    out.text(call_text(write_all(link, b"a 1 2\n")));
    out.text(call_text(link.finish()));
    out.count("; faults ", link.faults());
    step(out, "one that doesn't end its side: begin, write, finish");
    out.text(call_text(link.begin()));
    let held = listener.accept()?;
    out.text(call_text(write_all(link, b"a 1 2\n")));
    out.text(call_text(link.finish()));
    out.count("; faults ", link.faults());
    drop(held);
    step(out, "a port where nobody listens: begin, write, finish");
    drop(listener);
    round(link, b"a 1 2\n", out);
    out.count("; faults ", link.faults());
    Ok(())
}

/// Rounds over links to a listener, which then goes.
pub(crate) fn run<X: Threads + Sync>(
    threads: &X,
    rt: &HostRuntime,
    out: &mut Answer,
) -> io::Result<()> {
    let (stop, pace) = (Stop::new(None), Pace::new());
    let log = RunLog::new(rt, LevelFilter::Off);
    let mut link = GraphiteLink::new(rt, threads, &stop, &pace, &log);
    let mut buf = room(rt.alloc(), 1_024)?;
    out.text("links");
    step(out, "one that isn't open: begin, write, finish");
    round(&mut link, b"a 1 2\n", out);
    step(out, "a file, a host with a byte 255, this machine");
    let listener = TcpListener::bind(rt, socket_here(0))?;
    let port = listener.local_addr()?.port();
    for at in [
        Address::File(Name::new()),
        host_at(b"\xff", port),
        here(port),
    ] {
        out.text(" ");
        out.text(opening_text(link.open_at(&at)));
    }
    rounds(threads, &mut link, &listener, buf.as_mut_slice(), out)?;
    lost_rounds(&mut link, listener, out)
}
