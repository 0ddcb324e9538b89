//! Calls that are to fail.
ghost use Rattle.std.specs.Prelude.{◌≡◌, length};
ghost use Rattle.sd_memory.specs.MemBeat.{seen_of as beat_seen};
ghost use Rattle.sd_memory.specs.MemDoor.{seen_of as door_seen};

use crate::case::MemObjects;
use sd_case::{Refusal, number};
use sd_memory::{MemDatagrams, MemWire};

/// A call on an object.
#[derive(Clone, Copy)]
enum Call {
    OpenSettings,
    ReadSettings,
    OpenScript,
    ReadScript,
    OpenSource { source: usize },
    Next { source: usize },
    OpenWire { wire: usize },
    Send { wire: usize },
    OpenGraphite,
    Begin,
    Write,
    Finish,
    OpenConsole,
    BeginConsole,
    WriteConsole,
    FinishConsole,
    OpenDoor,
    NextSession,
    OpenStreams,
    NextStream,
    NextTick,
    Ask,
    WriteOutput,
}

/// A call that is to fail, by its number from 1.
#[derive(Clone, Copy)]
pub(crate) struct Failing {
    call: Call,
    number: u64,
}

impl Failing {
    /// The call that is written as `CALL:NUMBER`.
    pub(crate) fn of(text: &str) -> Result<Failing, Refusal> {
        let (call, place) = text.split_once(':').ok_or(Refusal::Malformed)?;
        Ok(Failing {
            call: call_of(call)?,
            number: number(place)?,
        })
    }
}

/// The call on the wire or the source of a number.
fn numbered_call_of(call: &str, place: usize) -> Result<Call, Refusal> {
    match call {
        "open_source" => Ok(Call::OpenSource { source: place }),
        "next" => Ok(Call::Next { source: place }),
        "open_wire" => Ok(Call::OpenWire { wire: place }),
        "send" => Ok(Call::Send { wire: place }),
        _ => Err(Refusal::Malformed),
    }
}

/// The call that a word names.
fn call_of(word: &str) -> Result<Call, Refusal> {
    if let Some((call, place)) = word.split_once('/') {
        return numbered_call_of(call, number(place)?);
    }
    match word {
        "open_settings" => Ok(Call::OpenSettings),
        "read_settings" => Ok(Call::ReadSettings),
        "open_script" => Ok(Call::OpenScript),
        "read_script" => Ok(Call::ReadScript),
        "open_graphite" => Ok(Call::OpenGraphite),
        "begin" => Ok(Call::Begin),
        "write" => Ok(Call::Write),
        "finish" => Ok(Call::Finish),
        "open_console" => Ok(Call::OpenConsole),
        "begin_console" => Ok(Call::BeginConsole),
        "write_console" => Ok(Call::WriteConsole),
        "finish_console" => Ok(Call::FinishConsole),
        "open_door" => Ok(Call::OpenDoor),
        "next_session" => Ok(Call::NextSession),
        "open_streams" => Ok(Call::OpenStreams),
        "next_stream" => Ok(Call::NextStream),
        "next_tick" => Ok(Call::NextTick),
        "ask" => Ok(Call::Ask),
        "write_output" => Ok(Call::WriteOutput),
        _ => Err(Refusal::Malformed),
    }
}

/// Has the call of a number fail.
fn note(calls: &mut Vec<u64>, number: u64) -> Result<(), Refusal> {
    calls.push(number)?;
    Ok(())
}

/// The source of a number.
fn source_at(sources: &mut [MemDatagrams], source: usize) -> Result<&mut MemDatagrams, Refusal> {
    sources.get_mut(source).ok_or(Refusal::Malformed)
}

/// The wire of a number.
fn wire_at(wires: &mut [MemWire], wire: usize) -> Result<&mut MemWire, Refusal> {
    wires.get_mut(wire).ok_or(Refusal::Malformed)
}

/// Has a call fail.
pub(crate) fn fail(world: &mut MemObjects, failing: Failing) -> Result<(), Refusal>
    ensures packets { length (world.new).packets.items ≡ length (world.old).packets.items }
    ensures wires { length (world.new).wires.items ≡ length (world.old).wires.items }
    ensures beat { beat_seen (world.new).beat ≡ beat_seen (world.old).beat }
    ensures door { door_seen (world.new).door ≡ door_seen (world.old).door }
    ensures streams { door_seen (world.new).streams ≡ door_seen (world.old).streams }
{
    let number = failing.number;
    match failing.call {
        Call::OpenSettings => note(&mut world.settings.fail_open, number),
        Call::ReadSettings => note(&mut world.settings.fail_call, number),
        Call::OpenScript => note(&mut world.script.fail_open, number),
        Call::ReadScript => note(&mut world.script.fail_call, number),
        Call::OpenSource { source } => {
            note(
                &mut source_at(&mut world.packets, source)?.fail_open,
                number,
            )
        }
        Call::Next { source } => {
            note(
                &mut source_at(&mut world.packets, source)?.fail_call,
                number,
            )
        }
        Call::OpenWire { wire } => note(&mut wire_at(&mut world.wires, wire)?.fail_open, number),
        Call::Send { wire } => note(&mut wire_at(&mut world.wires, wire)?.fail_call, number),
        Call::OpenGraphite => note(&mut world.backs.graphite.object.fail_open, number),
        Call::Begin => note(&mut world.backs.graphite.object.fail_begin, number),
        Call::Write => note(&mut world.backs.graphite.object.fail_call, number),
        Call::Finish => note(&mut world.backs.graphite.object.fail_finish, number),
        Call::OpenConsole => note(&mut world.backs.console.object.fail_open, number),
        Call::BeginConsole => note(&mut world.backs.console.object.fail_begin, number),
        Call::WriteConsole => note(&mut world.backs.console.object.fail_call, number),
        Call::FinishConsole => note(&mut world.backs.console.object.fail_finish, number),
        Call::OpenDoor => note(&mut world.door.fail_open, number),
        Call::NextSession => note(&mut world.door.fail_call, number),
        Call::OpenStreams => note(&mut world.streams.fail_open, number),
        Call::NextStream => note(&mut world.streams.fail_call, number),
        Call::NextTick => note(&mut world.beat.fail_call, number),
        Call::Ask => note(&mut world.probe.fail_call, number),
        Call::WriteOutput => note(&mut world.output.fail_call, number),
    }
}
