ghost use Rattle.std.specs.Prelude.{◌≡◌, ◌≤◌, false, length};

use log::LevelFilter;
use sd_case::Answer;
use sd_case_net::{SIZES, client_of, here, no_sockets, room, show_next, step, stuck};
use sd_net::{RunLog, Stop, TcpDoor};
use sd_outside::{Address, Door, Entry, Faulty, Name, OpenRefusal, Opens, read_full, write_all};
use std::io::{self, Write};
use std::net::TcpStream;
use std::thread::sleep;
use std::time::Duration;

/// How many bytes of a client a door has room for.
const ROOM: usize = 1_024;

/// What sessions are told.
const YES: &[u8] = b"yes\n";

/// How often a door is asked before it is taken for one that has no session.
const MOST_TURNS: u32 = 500;

/// Opens a door, and answers how that ended.
pub(crate) fn open<'a>(door: &mut TcpDoor<'a, HostRuntime>, at: &Address) -> &'static str
    requires { (⟦<TcpDoor<'a, HostRuntime> as Faulty>⟧.seen door.old).is_out ≡ false }
    ensures { (⟦<TcpDoor<'a, HostRuntime> as Faulty>⟧.seen door.new).is_out ≡ false }
{
    match door.open_at(at) {
        Ok(()) => " opened",
        Err(OpenRefusal::Failed) => " failed",
        Err(OpenRefusal::OutOfMemory) => " no memory",
    }
}

/// What a door answered, once a session that it gave was served and given back.
enum Asked {
    Served,
    End,
    Idle,
    Failed,
}

/// Asks a door once. Of a session as many bytes are read as the buffer has room for, and it is told something.
fn ask<'a>(
    door: &mut TcpDoor<'a, HostRuntime>,
    buf: &mut [u8],
    answer: &[u8],
    out: &mut Answer,
) -> Asked
    requires { (⟦<TcpDoor<'a, HostRuntime> as Faulty>⟧.seen door.old).is_out ≡ false }
    ensures { (⟦<TcpDoor<'a, HostRuntime> as Faulty>⟧.seen door.new).is_out ≡ false }
{
    match door.next_session() {
        Entry::Session(mut asking, mut telling) => {
            match read_full(&mut asking, buf) {
                Ok(len) => out.bytes(&buf[..len]),
                Err(_) => out.text("failed"),
            }
            if write_all(&mut telling, answer).is_err() {
                out.text(" cut off");
            }
            door.leave(asking, telling);
            Asked::Served
        }
        Entry::End => Asked::End,
        Entry::Idle => Asked::Idle,
        Entry::Failed => Asked::Failed,
    }
}

/// Asks a door until it has a session, which is served, or ends.
pub(crate) fn serve<'a>(
    door: &mut TcpDoor<'a, HostRuntime>,
    buf: &mut [u8],
    answer: &[u8],
    out: &mut Answer,
)
    requires { (⟦<TcpDoor<'a, HostRuntime> as Faulty>⟧.seen door.old).is_out ≡ false }
    ensures { (⟦<TcpDoor<'a, HostRuntime> as Faulty>⟧.seen door.new).is_out ≡ false }
{
    out.text(" ");
    for _ in 0..MOST_TURNS {
        match ask(door, buf, answer, out) {
            Asked::Served => return,
            Asked::End => {
                out.text("end");
                return;
            }
            Asked::Failed => {
                out.text("failed");
                return;
            }
            Asked::Idle => {}
        }
    }
    out.text("nothing");
}

/// Asks a door once, where it is to have no session.
pub(crate) fn rest<'a>(
    door: &mut TcpDoor<'a, HostRuntime>,
    buf: &mut [u8],
    answer: &[u8],
    out: &mut Answer,
)
    requires { (⟦<TcpDoor<'a, HostRuntime> as Faulty>⟧.seen door.old).is_out ≡ false }
    ensures { (⟦<TcpDoor<'a, HostRuntime> as Faulty>⟧.seen door.new).is_out ≡ false }
{
    match ask(door, buf, answer, out) {
        Asked::Served => out.text(" served"),
        Asked::End => out.text(" end"),
        Asked::Idle => out.text(" nothing"),
        Asked::Failed => out.text(" failed"),
    }
}

/// Clients of a door, one that says nothing among them.
pub(crate) fn run(rt: &HostRuntime, out: &mut Answer) -> io::Result<()> {
    let mut buf = room(rt.alloc(), 2 * ROOM)?;
    let stop = Stop::new(None);
    let sockets = no_sockets(rt.alloc());
    let log = RunLog::new(rt, LevelFilter::Off);
    let mut door = TcpDoor::new(rt, rt.alloc(), &sockets, &stop, SIZES, &log);
    out.text("\ndoors");
    step(out, "one that isn't open");
    rest(&mut door, buf.as_mut_slice(), YES, out);
    step(out, "a file, this machine, and then nobody");
    out.text(open(&mut door, &Address::File(Name::new())));
    out.text(open(&mut door, &here(0)));
    rest(&mut door, buf.as_mut_slice(), YES, out);
    let port = door.port().ok_or_else(stuck)?;
    visits(rt, &mut door, port, buf.as_mut_slice(), out)?;
    crowd(rt, &mut door, port, buf.as_mut_slice(), out)?;
    stopped(rt, &mut door, port, &stop, buf.as_mut_slice(), out)?;
    out.count("; faults ", door.faults());
    Ok(())
}

/// A stop, where two clients are in the middle of a line.
fn stopped<'a>(
    rt: &HostRuntime,
    door: &mut TcpDoor<'a, HostRuntime>,
    port: u16,
    stop: &Stop,
    buf: &mut [u8],
    out: &mut Answer,
) -> io::Result<()>
    requires { (⟦<TcpDoor<'a, HostRuntime> as Faulty>⟧.seen door.old).is_out ≡ false }
{
    step(
        out,
        "a stop, where one client has sent a line and a half, and another half a line",
    );
    let mut first = client_of(rt, port)?;
    let mut second = client_of(rt, port)?;
    first.write_all(b"health\nhea")?;
    second.write_all(b"hea")?;
    sleep(rt, Duration::from_millis(50));
    stop.set();
    serve(door, buf, YES, out);
    show_next(&mut first, buf, out);
    first.write_all(b"lth\n")?;
    serve(door, buf, YES, out);
    rest(door, buf, YES, out);
    Ok(())
}

/// A line that is cut in two by a pause, with the start of another behind it, and then the rest of that one, and one more.
fn cut_lines<'a>(
    door: &mut TcpDoor<'a, HostRuntime>,
    client: &mut TcpStream,
    buf: &mut [u8],
    out: &mut Answer,
) -> io::Result<()>
    requires room { 5 ≤ length buf.old }
    requires door { (⟦<TcpDoor<'a, HostRuntime> as Faulty>⟧.seen door.old).is_out ≡ false }
    ensures { (⟦<TcpDoor<'a, HostRuntime> as Faulty>⟧.seen door.new).is_out ≡ false }
{
    step(
        out,
        "a line that is cut in two by a pause, with the start of another behind it",
    );
    client.write_all(b"sta")?;
    rest(door, buf, YES, out);
    client.write_all(b"ts\nqu")?;
    serve(door, buf, YES, out);
    show_next(client, buf, out);
    step(
        out,
        "the rest of that line, and one more, of which the session reads the first",
    );
    client.write_all(b"it\nstats\n")?;
    serve(door, &mut buf[..5], YES, out);
    show_next(client, buf, out);
    show_next(client, buf, out);
    Ok(())
}

/// A line that is longer than a session takes.
fn long_line<'a>(
    rt: &HostRuntime,
    door: &mut TcpDoor<'a, HostRuntime>,
    client: &mut TcpStream,
    buf: &mut [u8],
    out: &mut Answer,
) -> io::Result<()>
    requires door { (⟦<TcpDoor<'a, HostRuntime> as Faulty>⟧.seen door.old).is_out ≡ false }
    ensures { (⟦<TcpDoor<'a, HostRuntime> as Faulty>⟧.seen door.new).is_out ≡ false }
{
    step(
        out,
        "1,034 bytes without a newline, of which the session reads as many as there is room for",
    );
    let mut line = room(rt.alloc(), ROOM)?;
    line.as_mut_slice().fill(b'x');
    client.write_all(line.as_slice())?;
    client.write_all(b"xxxxxxxxxx")?;
    serve(door, line.as_mut_slice(), YES, out);
    show_next(client, buf, out);
    show_next(client, buf, out);
    Ok(())
}

/// Sessions of three clients beside one that says nothing.
fn visits<'a>(
    rt: &HostRuntime,
    door: &mut TcpDoor<'a, HostRuntime>,
    port: u16,
    buf: &mut [u8],
    out: &mut Answer,
) -> io::Result<()>
    requires room { 5 ≤ length buf.old }
    requires door { (⟦<TcpDoor<'a, HostRuntime> as Faulty>⟧.seen door.old).is_out ≡ false }
    ensures { (⟦<TcpDoor<'a, HostRuntime> as Faulty>⟧.seen door.new).is_out ≡ false }
{
    let _silent = client_of(rt, port)?;
    let mut first = client_of(rt, port)?;
    let second = client_of(rt, port)?;
    cut_lines(door, &mut first, buf, out)?;
    two_clients(rt, door, port, second, buf, out)
}

/// Lines of two clients, a line that is too long, and a client that leaves.
fn two_clients<'a>(
    rt: &HostRuntime,
    door: &mut TcpDoor<'a, HostRuntime>,
    port: u16,
    mut second: TcpStream,
    buf: &mut [u8],
    out: &mut Answer,
) -> io::Result<()>
    requires { (⟦<TcpDoor<'a, HostRuntime> as Faulty>⟧.seen door.old).is_out ≡ false }
    ensures { (⟦<TcpDoor<'a, HostRuntime> as Faulty>⟧.seen door.new).is_out ≡ false }
{
    step(out, "two lines of a client and one of another");
    let mut third = client_of(rt, port)?;
    second.write_all(b"a\nb\n")?;
    third.write_all(b"c\n")?;
    serve(door, buf, YES, out);
    serve(door, buf, YES, out);
    show_next(&mut second, buf, out);
    show_next(&mut third, buf, out);
    long_line(rt, door, &mut third, buf, out)?;
    step(out, "a client that leaves behind a line");
    second.write_all(b"d\n")?;
    drop(second);
    serve(door, buf, YES, out);
    rest(door, buf, YES, out);
    Ok(())
}

/// More clients than a door holds, of whom the last says something.
fn crowd<'a>(
    rt: &HostRuntime,
    door: &mut TcpDoor<'a, HostRuntime>,
    port: u16,
    buf: &mut [u8],
    out: &mut Answer,
) -> io::Result<()>
    requires { (⟦<TcpDoor<'a, HostRuntime> as Faulty>⟧.seen door.old).is_out ≡ false }
    ensures { (⟦<TcpDoor<'a, HostRuntime> as Faulty>⟧.seen door.new).is_out ≡ false }
{
    step(
        out,
        "a line of the seventieth client while the others say nothing, of whom the first ones go",
    );
    let mut silent = Vec::new(rt.alloc());
    for _ in 0..69 {
        silent.push(client_of(rt, port)?)?;
    }
    let mut last = client_of(rt, port)?;
    last.write_all(b"last\n")?;
    serve(door, buf, YES, out);
    show_next(&mut last, buf, out);
    if let Some(first) = silent.first_mut() {
        show_next(first, buf, out);
    }
    Ok(())
}
