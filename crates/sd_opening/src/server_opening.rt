//! The parts of a server, opened in their order.
ghost use Rattle.std.specs.Prelude.{◌≡◌, ◌+◌, ◌<◌, ◌≤◌, ◌^◌, [], ◌∷◌, length, map, if◌then◌else◌, OnOk, IfErr};
ghost use Rattle.sd_model_outside.specs.Outside as outside;
ghost use Rattle.sd_model_outside.specs.Outside.{Host, opened};
ghost use Rattle.sd_model_call.specs.Call.{StopsAmong};
ghost use Rattle.sd_model_replay.specs.Replay.{is_used};
ghost use Rattle.sd_model_call.specs.Opening.{OfSource, opened_all, repeated};
ghost use Rattle.sd_model_call.specs.Server.{door_openings, has_streams, server_openings, source_openings, stream_openings};
ghost use Rattle.sd_outside.specs.Places.{place_of};
ghost use Rattle.sd_opening.specs.Answers.{answer_of};
ghost use Rattle.sd_opening.specs.Causes.{EachStops, opened_each};
ghost use Rattle.sd_opening.specs.World.{SameRest, world_of};

use crate::opening::{open, open_backs, open_repeater, open_where};
use crate::status::{Part, Status};
use crate::world::WorldOf;
use sd_config::Settings;
use sd_outside::{Address, Datagrams, Name};
use sd_run::ObjectTypes;

/// An address on the network.
pub(crate) fn host_address(host: &Name, port: u32) -> Address
    requires { port < 2 ^ 16 }
    ensures { place_of result ≡ Host host.now.items port }
{
    Address::Host {
        host: host.clone().unwrap(),
        port: u16::try_from(port).unwrap(),
    }
}

/// An address where datagrams come, with so many bytes of room asked for.
fn datagrams_address(host: &Name, port: u32, receive_buffer: u32) -> Address
    requires { port < 2 ^ 16 }
    ensures { place_of result ≡ outside.Datagrams host.now.items port receive_buffer }
{
    Address::Datagrams {
        host: host.clone().unwrap(),
        port: u16::try_from(port).unwrap(),
        receive_buffer,
    }
}

/// Opens so many sources at one address, in order; the first has this number.
///
/// # Errors
///
/// `OpenFault` where one failed, and `OutOfMemory`.
pub(crate) fn open_sources<D: Datagrams>(
    first: u16,
    count: u16,
    at: &Address,
    sources: &mut [D],
) -> Result<(), Status>
    requires fits { first + count < 2 ^ 16 }
    requires some { count ≤ length sources.old }
    ensures ok { OnOk result (map D.seen sources.new ≡ opened_each (repeated count (place_of at.now ∷ [])) (map D.seen sources.old)) }
    ensures refused { IfErr result (λ status. EachStops OfSource first (repeated count (place_of at.now ∷ [])) (answer_of status) (map D.seen sources.old) (map D.seen sources.new)) }
    ensures count { length sources.new ≡ length sources.old }
{
    if count == 0 {
        return Ok(());
    }
    let Some((source, sources)) = sources.split_first_mut() else {
        return Ok(());
    };
    open(source, at, Part::Packets(first))?;
    open_sources(first + 1, count - 1, at, sources)
}

/// Opens a source for each receiver, in order, with the room that the settings ask for.
///
/// # Errors
///
/// `OpenFault` where one failed, and `OutOfMemory`.
pub(crate) fn open_packets<K: ObjectTypes>(
    settings: &Settings,
    world: &mut WorldOf<K>,
) -> Result<(), Status>
    requires { 16 ≤ length (world.old).packets.items }
    ensures opened { OnOk result (world_of K.R.seen K.O.seen K.B.seen K.D.seen K.L.seen K.E.seen K.P.seen K.Q.seen K.S.seen world.new
        ≡ opened_all (world_of K.R.seen K.O.seen K.B.seen K.D.seen K.L.seen K.E.seen K.P.seen K.Q.seen K.S.seen world.old) (source_openings settings.now)) }
    ensures refused { IfErr result (λ status. StopsAmong (source_openings settings.now) (answer_of status)
        (world_of K.R.seen K.O.seen K.B.seen K.D.seen K.L.seen K.E.seen K.P.seen K.Q.seen K.S.seen world.old)
        (world_of K.R.seen K.O.seen K.B.seen K.D.seen K.L.seen K.E.seen K.P.seen K.Q.seen K.S.seen world.new)) }
    ensures count { length (world.new).packets.items ≡ length (world.old).packets.items }
    ensures wires { (world.new).wires ≡ (world.old).wires }
    ensures door { (world.new).door ≡ (world.old).door }
    ensures streams { (world.new).streams ≡ (world.old).streams }
    ensures rest { SameRest world.old world.new }
    ensures backs { (world.new).backs ≡ (world.old).backs }
    ensures same_use { (world_of K.R.seen K.O.seen K.B.seen K.D.seen K.L.seen K.E.seen K.P.seen K.Q.seen K.S.seen world.new).uses ≡ (world_of K.R.seen K.O.seen K.B.seen K.D.seen K.L.seen K.E.seen K.P.seen K.Q.seen K.S.seen world.old).uses }
{
    let receivers = u16::try_from(settings.receivers()).unwrap();
    let at = datagrams_address(
        settings.address(),
        settings.port(),
        settings.receive_buffer(),
    );
    open_sources(0, receivers, &at, &mut world.packets)
}

/// Whether a server or a proxy by these settings reads lines of streams.
pub fn reads_streams(settings: &Settings) -> bool
    ensures { result ≡ has_streams settings.now }
{
    settings.tcp_port() > 0
}

/// Opens the door of streams, where it is used.
///
/// # Errors
///
/// `OpenFault` where it failed, and `OutOfMemory`.
pub(crate) fn open_streams<K: ObjectTypes>(
    settings: &Settings,
    world: &mut WorldOf<K>,
) -> Result<(), Status>
    ensures opened { OnOk result (world_of K.R.seen K.O.seen K.B.seen K.D.seen K.L.seen K.E.seen K.P.seen K.Q.seen K.S.seen world.new
        ≡ opened_all (world_of K.R.seen K.O.seen K.B.seen K.D.seen K.L.seen K.E.seen K.P.seen K.Q.seen K.S.seen world.old) (stream_openings settings.now)) }
    ensures refused { IfErr result (λ status. StopsAmong (stream_openings settings.now) (answer_of status)
        (world_of K.R.seen K.O.seen K.B.seen K.D.seen K.L.seen K.E.seen K.P.seen K.Q.seen K.S.seen world.old)
        (world_of K.R.seen K.O.seen K.B.seen K.D.seen K.L.seen K.E.seen K.P.seen K.Q.seen K.S.seen world.new)) }
    ensures streams { OnOk result (K.S.seen (world.new).streams ≡ (if has_streams settings.now then opened (Host (settings.now).addresses.address (settings.now).transport.tcp_port) (K.S.seen (world.old).streams) else K.S.seen (world.old).streams)) }
    ensures packets { (world.new).packets ≡ (world.old).packets }
    ensures wires { (world.new).wires ≡ (world.old).wires }
    ensures door { (world.new).door ≡ (world.old).door }
    ensures backs { (world.new).backs ≡ (world.old).backs }
    ensures rest { SameRest world.old world.new }
{
    let streams = host_address(settings.address(), settings.tcp_port());
    open_where(
        reads_streams(settings),
        &mut world.streams,
        &streams,
        Part::Streams,
    )
}

/// Opens the door of streams, where it is used, and then the admin door: where that is open, all parts of the server are.
///
/// # Errors
///
/// `OpenFault` where one failed, and `OutOfMemory`.
fn open_doors<K: ObjectTypes>(settings: &Settings, world: &mut WorldOf<K>) -> Result<(), Status>
    ensures opened { OnOk result (world_of K.R.seen K.O.seen K.B.seen K.D.seen K.L.seen K.E.seen K.P.seen K.Q.seen K.S.seen world.new
        ≡ opened_all (world_of K.R.seen K.O.seen K.B.seen K.D.seen K.L.seen K.E.seen K.P.seen K.Q.seen K.S.seen world.old) (door_openings settings.now)) }
    ensures refused { IfErr result (λ status. StopsAmong (door_openings settings.now) (answer_of status)
        (world_of K.R.seen K.O.seen K.B.seen K.D.seen K.L.seen K.E.seen K.P.seen K.Q.seen K.S.seen world.old)
        (world_of K.R.seen K.O.seen K.B.seen K.D.seen K.L.seen K.E.seen K.P.seen K.Q.seen K.S.seen world.new)) }
    ensures door { OnOk result (K.E.seen (world.new).door ≡ opened (Host (settings.now).addresses.mgmt_address (settings.now).server.mgmt_port) (K.E.seen (world.old).door)) }
    ensures streams { OnOk result (K.S.seen (world.new).streams ≡ (if has_streams settings.now then opened (Host (settings.now).addresses.address (settings.now).transport.tcp_port) (K.S.seen (world.old).streams) else K.S.seen (world.old).streams)) }
    ensures packets { (world.new).packets ≡ (world.old).packets }
    ensures wires { (world.new).wires ≡ (world.old).wires }
    ensures backs { (world.new).backs ≡ (world.old).backs }
    ensures rest { SameRest world.old world.new }
{
    open_streams::<K>(settings, world)?;
    let door = host_address(settings.mgmt_address(), settings.mgmt_port());
    open(&mut world.door, &door, Part::Door)
}

/// Opens all parts of a server by these settings, in their order.
///
/// # Errors
///
/// `OpenFault` where one failed, and `OutOfMemory`.
pub fn open_server<K: ObjectTypes>(
    settings: &Settings,
    world: &mut WorldOf<K>,
) -> Result<(), Status>
    requires uses { (world_of K.R.seen K.O.seen K.B.seen K.D.seen K.L.seen K.E.seen K.P.seen K.Q.seen K.S.seen world.old).uses ≡ is_used settings.now }
    requires packets { 16 ≤ length (world.old).packets.items }
    requires wires { 256 ≤ length (world.old).wires.items }
    ensures opened { OnOk result (world_of K.R.seen K.O.seen K.B.seen K.D.seen K.L.seen K.E.seen K.P.seen K.Q.seen K.S.seen world.new
        ≡ opened_all (world_of K.R.seen K.O.seen K.B.seen K.D.seen K.L.seen K.E.seen K.P.seen K.Q.seen K.S.seen world.old) (server_openings settings.now)) }
    ensures refused { IfErr result (λ status. StopsAmong (server_openings settings.now) (answer_of status)
        (world_of K.R.seen K.O.seen K.B.seen K.D.seen K.L.seen K.E.seen K.P.seen K.Q.seen K.S.seen world.old)
        (world_of K.R.seen K.O.seen K.B.seen K.D.seen K.L.seen K.E.seen K.P.seen K.Q.seen K.S.seen world.new)) }
    ensures packets { length (world.new).packets.items ≡ length (world.old).packets.items }
    ensures wires { length (world.new).wires.items ≡ length (world.old).wires.items }
    ensures door { OnOk result (K.E.seen (world.new).door ≡ opened (Host (settings.now).addresses.mgmt_address (settings.now).server.mgmt_port) (K.E.seen (world.old).door)) }
    ensures streams { OnOk result (K.S.seen (world.new).streams ≡ (if has_streams settings.now then opened (Host (settings.now).addresses.address (settings.now).transport.tcp_port) (K.S.seen (world.old).streams) else K.S.seen (world.old).streams)) }
    ensures rest { SameRest world.old world.new }
    ensures same_use { (world_of K.R.seen K.O.seen K.B.seen K.D.seen K.L.seen K.E.seen K.P.seen K.Q.seen K.S.seen world.new).uses ≡ (world_of K.R.seen K.O.seen K.B.seen K.D.seen K.L.seen K.E.seen K.P.seen K.Q.seen K.S.seen world.old).uses }
{
    let receivers = u16::try_from(settings.receivers()).unwrap();
    open_packets::<K>(settings, world)?;
    open_repeater::<K>(receivers, settings, world)?;
    let graphite = host_address(settings.graphite_host(), settings.graphite_port());
    open_backs(&mut world.backs, &graphite)?;
    open_doors::<K>(settings, world)
}
