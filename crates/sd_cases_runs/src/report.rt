use crate::passing::{MemWorld, PassingSource, PassingWire};
use crate::status::show_status;
use sd_case::Answer;
use sd_memory::{MemBackend, MemBeat, MemDoor, MemProbe, MemWire};
use sd_outside::Address;
use sd_top::Status;

/// Appends all that came of a run: its status, exit and explanation, Graphite's lists, what came of the objects of a server or a
/// proxy, the output, the counts of faults, where each object was opened, and which backends are used.
pub(crate) fn report(status: &Status, world: &MemWorld<'_>, out: &mut Answer) {
    out.text("\n  ");
    show_status(status, out);
    show_lists(&world.backs.graphite.object.object, "list", out);
    show_lists(&world.backs.console.object.object, "console", out);
    show_sources(&world.packets, out);
    show_wires(&world.wires, out);
    show_beat(&world.beat, out);
    show_door("door", &world.door.object, out);
    show_door("streams", &world.streams.object, out);
    show_probe(&world.probe, out);
    out.text("\n  output:");
    out.lines(world.output.bytes());
    show_faults(world, out);
    show_places(world, out);
    out.text("\n  used: graphite ");
    out.yes_or_no(world.backs.graphite.is_used);
    out.text(", console ");
    out.yes_or_no(world.backs.console.is_used);
}

/// Appends the lists that a backend was given, each with whether it was ended, under a name.
fn show_lists(backend: &MemBackend, name: &str, out: &mut Answer) {
    for place in 0..backend.lists() {
        out.text("\n  ");
        out.text(name);
        out.text(if backend.is_ended(place) {
            ", ended:"
        } else {
            ", open:"
        });
        out.lines(backend.list(place));
    }
}

/// Appends the wires that were opened or failed: where they were opened, how often they failed, and the packets that were
/// sent.
fn show_wires(wires: &[PassingWire<'_>], out: &mut Answer) {
    for (place, passing) in wires.iter().enumerate() {
        let wire = &passing.object;
        if wire.opened_at().is_some() || wire.faults() > 0 {
            out.count("\n  wire ", place as u64);
            out.text(": opened ");
            show_address(wire.opened_at(), out);
            out.count(", faults ", wire.faults());
            out.count(", packets ", wire.packets() as u64);
            show_packets(wire, out);
        }
    }
}

/// Appends the sources that were opened or failed: where they were opened, how often they failed, and how many datagrams they
/// have left.
fn show_sources(sources: &[PassingSource<'_>], out: &mut Answer) {
    for (place, passing) in sources.iter().enumerate() {
        let source = &passing.object;
        if source.opened_at().is_some() || source.faults() > 0 {
            out.count("\n  source ", place as u64);
            out.text(": opened ");
            show_address(source.opened_at(), out);
            out.count(", faults ", source.faults());
            out.count(", left ", source.remaining().len() as u64);
        }
    }
}

/// Appends what came of the beat, where it was started.
fn show_beat(beat: &MemBeat, out: &mut Answer) {
    if let Some(interval) = beat.interval() {
        out.count("\n  beat: every ", u64::from(interval.ms));
        out.text(if interval.is_aligned {
            " ms of the clock"
        } else {
            " ms"
        });
        out.count(", faults ", beat.faults());
        out.count(", left ", beat.remaining().len() as u64);
    }
}

/// Appends what came of a door under its name, where it was opened or failed, and the replies of the sessions that were given back.
fn show_door(name: &str, door: &MemDoor, out: &mut Answer) {
    if door.opened_at().is_some() || door.faults() > 0 {
        out.text("\n  ");
        out.text(name);
        out.text(": opened ");
        show_address(door.opened_at(), out);
        out.count(", faults ", door.faults());
        out.count(", left ", door.remaining().len() as u64);
        for (asking, telling) in door.back() {
            out.text("\n  session, left ");
            out.bytes(asking.remaining());
            out.text(":");
            out.lines(telling.bytes());
        }
    }
}

/// Appends what came of the probe, where it was asked: how often it failed, how many replies it has left, and where it was asked.
fn show_probe(probe: &MemProbe, out: &mut Answer) {
    if !probe.questions().is_empty() || probe.faults() > 0 {
        out.count("\n  probe: faults ", probe.faults());
        out.count(", left ", probe.remaining().len() as u64);
        for question in probe.questions() {
            out.text("\n    ");
            show_address(Some(&question.at), out);
            out.text(if question.is_answered {
                ", answered"
            } else {
                ", failed"
            });
        }
    }
}

/// Appends the packets that were sent on a wire, in order.
fn show_packets(wire: &MemWire, out: &mut Answer) {
    for place in 0..wire.packets() {
        out.text("\n    ");
        out.bytes(wire.packet(place));
    }
}

/// Appends how often each object failed.
fn show_faults(world: &MemWorld<'_>, out: &mut Answer) {
    out.count("\n  faults: settings ", world.settings.faults());
    out.count(", script ", world.script.faults());
    out.count(", output ", world.output.faults());
    out.count(", graphite ", world.backs.graphite.object.object.faults());
    out.count(", console ", world.backs.console.object.object.faults());
}

/// Appends where each object was opened.
fn show_places(world: &MemWorld<'_>, out: &mut Answer) {
    out.text("\n  opened: settings ");
    show_address(world.settings.opened_at(), out);
    out.text(", script ");
    show_address(world.script.opened_at(), out);
    out.text(", graphite ");
    show_address(world.backs.graphite.object.object.opened_at(), out);
    out.text(", console ");
    show_address(world.backs.console.object.object.opened_at(), out);
}

/// Appends an address, or `nowhere`.
fn show_address(at: Option<&Address>, out: &mut Answer) {
    match at {
        None => out.text("nowhere"),
        Some(Address::File(name)) => {
            out.text("file ");
            out.bytes(name.as_slice());
        }
        Some(Address::Host { host, port }) => {
            out.text("host ");
            out.bytes(host.as_slice());
            out.count(" ", u64::from(*port));
        }
        Some(
            Address::Datagrams {
                host,
                port,
                receive_buffer,
            },
        ) => {
            out.text("datagrams ");
            out.bytes(host.as_slice());
            out.count(" ", u64::from(*port));
            out.count(" room ", u64::from(*receive_buffer));
        }
    }
}
