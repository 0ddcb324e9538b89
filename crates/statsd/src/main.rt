//! A StatsD daemon.
//!
//! `main` makes the objects of a `World`, those of `sd_net` and the adapters here for files, standard output, backends and wires,
//! and calls `sd_top::statsd`. It prints what `explain` says on standard error, and exits with the status's number. It looks into
//! no settings, line or text. The adapters tell contracts nothing of the bytes: that these are the ones that the theorem speaks
//! of is by reading, and by `checks/program` and `checks/server`.
#![tactic(auto)]

ghost use Rattle.std.specs.Prelude.{◌≡◌, drop, length, IfOk};
ghost use Rattle.std.specs.Process.{exit_status};
ghost use Rattle.sd_model_outside.specs.Outside.{Unknown, fresh};
ghost use Rattle.sd_opening.specs.Status.{exit_code};

mod adapter;
mod backend_out;
mod file_source;
mod shared;
mod standard_out;

use backend_out::BackendOut;
use file_source::FileSource;
use sd_decimal::Line;
use sd_net::{
    DoorSizes, LongLines, Share, SystemClock, TcpDoor, TcpProbe, TickBeat, UdpReceiver, UdpWire,
};
use sd_outside::{Back, NoGate, PerBackend};
use sd_top::{Status, World, explain, statsd};
use shared::{Shared, no_memory};
use standard_out::StandardOut;
use std::alloc::{AllocError, Global};
use std::io::{ErrorKind, Write};
use std::process::ExitCode;
use std::random::RandomSource;
use std::sync::Wait;
use std::thread::Threads;
use std::{env, time};

/// The words of the command line, with the program's name first.
///
/// # Errors
///
/// `OutOfMemory`, and `Usage` where a word isn't UTF-8.
fn words(rt: &HostRuntime) -> Result<Vec<String>, Status> {
    match env::args(rt) {
        Ok(args) => args.collect(rt.alloc()).map_err(no_memory),
        Err(e) if e.kind() == ErrorKind::OutOfMemory => Err(Status::OutOfMemory),
        Err(_) => Err(Status::Usage),
    }
}

/// The words behind the program's name.
fn behind_name(words: &[String]) -> &[String]
    ensures { result.now ≡ drop 1 words.now }
{
    match words {
        [_, rest @ ..] => rest,
        [] => &[],
    }
}

/// How the program exits after a status.
fn exit_of(status: &Status) -> ExitCode
    ensures { exit_status result ≡ exit_code status.now }
{
    ExitCode::from(status.exit())
}

/// How many receivers of datagrams a world has.
const RECEIVERS: usize = 16;

/// How many wires a world has.
const WIRES: usize = 256;

/// What the admin port holds of its clients. The longest question has 1,024 bytes with its newline.
const ADMIN_SIZES: DoorSizes = DoorSizes {
    clients: 64,
    line: 1_024,
    long_lines: LongLines::Split,
    share: Share::Line,
    replies: 256 << 20,
};

/// What the port for streams of lines holds of its clients: one byte more than a line may have, so that a longer one is known.
const STREAM_SIZES: DoorSizes = DoorSizes {
    clients: 256,
    line: 65_508,
    long_lines: LongLines::Cut,
    share: Share::Lines,
    replies: 0,
};

/// Receivers of datagrams that are opened later.
///
/// # Errors
///
/// Where no memory is left for the list.
fn receivers<'a>(
    rt: &'a HostRuntime,
    shared: &'a Shared<'a>,
) -> Result<Vec<UdpReceiver<'a, HostRuntime>>, AllocError>
    ensures { IfOk result (λ receivers. length receivers.items ≡ 16) }
{
    let mut receivers = Vec::with_capacity(rt.alloc(), RECEIVERS)?;
    for _ in 0..RECEIVERS {
        receivers.push(UdpReceiver::new(rt, &shared.sockets, &shared.stop, &shared.log))?;
    }
    Ok(receivers)
}

/// Wires that are opened later.
///
/// # Errors
///
/// Where no memory is left for the list.
fn wires<'a, X>(
    rt: &'a HostRuntime,
    threads: &'a X,
    shared: &'a Shared<'a>,
) -> Result<Vec<UdpWire<'a, X>>, AllocError>
    ensures { IfOk result (λ wires. length wires.items ≡ 256) }
{
    let mut wires = Vec::with_capacity(rt.alloc(), WIRES)?;
    for _ in 0..WIRES {
        wires.push(UdpWire::new(rt, threads, &shared.hosts, &shared.log))?;
    }
    Ok(wires)
}

/// Executes what the words ask for.
fn run<'a>(
    threads: &'a (impl Threads + Wait + RandomSource + time::Clock + Sync),
    rt: &'a HostRuntime,
    shared: &'a Shared<'a>,
) -> Status {
    let words = match words(rt) {
        Ok(words) => words,
        Err(status) => return status,
    };
    let alloc = rt.alloc();
    let Ok(packets) = receivers(rt, shared) else {
        return Status::OutOfMemory;
    };
    let Ok(wires) = wires(rt, threads, shared) else {
        return Status::OutOfMemory;
    };
    let back = BackendOut::new(rt, threads, shared);
    let mut world = World {
        settings: FileSource::new(rt, threads, shared),
        script: FileSource::new(rt, threads, shared),
        output: StandardOut::new(rt, threads, shared),
        backs: PerBackend::from_fn(|_| Back {
            object: back.another(),
            is_used: false,
        }),
        packets,
        wires,
        door: TcpDoor::new(
            rt,
            alloc,
            &shared.sockets,
            &shared.stop,
            ADMIN_SIZES,
            &shared.log,
        ),
        beat: TickBeat::new(rt, &shared.stop, &shared.pace, &shared.log),
        gate: NoGate,
        clock: SystemClock::new(rt, &shared.pace),
        probe: TcpProbe::new(rt, threads, &shared.hosts, &shared.log),
        streams: TcpDoor::new(
            rt,
            alloc,
            &shared.sockets,
            &shared.stop,
            STREAM_SIZES,
            &shared.log,
        ),
        log: &shared.log,
    };
    statsd(threads, alloc, behind_name(words.as_slice()), &mut world)
}

fn main(rt: HostRuntime) -> ExitCode {
    let status = match Shared::new(&rt) {
        Ok(shared) => run(&rt, &rt, &shared),
        Err(status) => status,
    };
    let mut text = Line::new();
    explain(&status, &mut text);
    // there is no one left to tell where this fails
    let _ = rt.stderr().write_all(text.as_slice());
    exit_of(&status)
}
