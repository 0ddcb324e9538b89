use arrayvec::ArrayVec;
use log::LevelFilter;
use sd_case::Answer;
use sd_case_net::{here, host_at, socket_here, step};
use sd_net::{Hosts, RunLog, TcpProbe};
use sd_outside::{Address, Failed, Name, Probe};
use std::io::{self, Read, Write};
use std::net::TcpListener;
use std::thread::{Threads, join, sleep};
use std::time::{Clock, Duration};

/// How long a server waits between two pieces of its reply, in milliseconds.
const PAUSE_MS: u64 = 20;

/// After how many seconds a question has to be given up.
const LIMIT: u64 = 4;

/// How a question was answered, and how often the probe had failed by then.
#[derive(Drop)]
struct Asked {
    answer: Result<ArrayVec<u8, 1024>, Failed>,
    faults: u64,
}

/// Asks by a probe of its own.
fn ask(threads: &(impl Threads + Sync), rt: &HostRuntime, at: &Address) -> io::Result<Asked> {
    let hosts = Hosts::open(rt.alloc())?;
    let log = RunLog::new(rt, LevelFilter::Off);
    let mut probe = TcpProbe::new(rt, threads, &hosts, &log);
    let mut line = ArrayVec::new();
    let answer = match probe.ask(at, &mut line) {
        Ok(()) => Ok(line),
        Err(Failed) => Err(Failed),
    };
    Ok(Asked {
        answer,
        faults: probe.faults(),
    })
}

fn show(asked: &Asked, out: &mut Answer) {
    out.text(" ");
    match &asked.answer {
        Ok(line) => out.bytes(line.as_slice()),
        Err(Failed) => out.text("failed"),
    }
    out.count(", faults ", asked.faults);
}

/// Takes a connection and a question, answers in pieces, and hangs up. Whether it was asked for its health.
fn reply(rt: &HostRuntime, listener: &TcpListener, pieces: &[&[u8]]) -> io::Result<bool> {
    let mut question = [0u8; 7];
    let (mut stream, _) = listener.accept()?;
    stream.read_exact(&mut question)?;
    for piece in pieces {
        stream.write_all(piece)?;
        sleep(rt, Duration::from_millis(PAUSE_MS));
    }
    Ok(question == *b"health\n")
}

/// A question to a server that answers in these pieces.
fn answered(
    threads: &(impl Threads + Sync),
    rt: &HostRuntime,
    pieces: &[&[u8]],
    out: &mut Answer,
) -> io::Result<()> {
    let listener = TcpListener::bind(rt, socket_here(0))?;
    let at = here(listener.local_addr()?.port());
    let (replied, asked) = join(
        threads,
        || reply(rt, &listener, pieces),
        || ask(threads, rt, &at),
    );
    show(&asked?, out);
    if !replied? {
        out.text(" to another question");
    }
    Ok(())
}

/// A question to a port where nobody listens any more.
fn unheard(threads: &(impl Threads + Sync), rt: &HostRuntime, out: &mut Answer) -> io::Result<()> {
    let listener = TcpListener::bind(rt, socket_here(0))?;
    let at = here(listener.local_addr()?.port());
    drop(listener);
    show(&ask(threads, rt, &at)?, out);
    Ok(())
}

/// A question to a listener that doesn't answer.
fn unanswered(
    threads: &(impl Threads + Sync),
    rt: &HostRuntime,
    out: &mut Answer,
) -> io::Result<()> {
    let listener = TcpListener::bind(rt, socket_here(0))?;
    let before = rt.monotonic()?;
    let at = here(listener.local_addr()?.port());
    show(&ask(threads, rt, &at)?, out);
    let took = rt.monotonic()?.saturating_sub(before);
    let is_early = took < Duration::from_secs(LIMIT);
    out.text(if is_early { ", in time" } else { ", too late" });
    Ok(())
}

/// Questions to places where nobody answers, and to servers that answer in several ways.
pub(crate) fn run(
    threads: &(impl Threads + Sync),
    rt: &HostRuntime,
    out: &mut Answer,
) -> io::Result<()> {
    out.text("\nprobes");
    step(out, "a file, a host with a byte 255");
    show(&ask(threads, rt, &Address::File(Name::new()))?, out);
    show(&ask(threads, rt, &host_at(b"\xff", 1))?, out);
    step(out, "a port where nobody listens");
    unheard(threads, rt, out)?;
    step(out, "a listener that doesn't answer");
    unanswered(threads, rt, out)?;
    step(out, "a line with another behind it");
    answered(threads, rt, &[b"health: up\nEND\n"], out)?;
    step(out, "a line in pieces, with a carriage return");
    answered(threads, rt, &[b"h", b"ealth: ", b"up", b"\r", b"\n"], out)?;
    step(out, "a line without its end");
    answered(threads, rt, &[b"health: up"], out)?;
    step(out, "nothing at all");
    answered(threads, rt, &[], out)?;
    step(out, "1,024 bytes without an end, in pieces");
    answered(threads, rt, &[&[b'x'; 1_000], &[b'x'; 24]], out)
}
