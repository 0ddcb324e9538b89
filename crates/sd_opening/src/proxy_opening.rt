//! The parts of a proxy, opened in their order, where its settings are those of one.
ghost use Rattle.std.specs.Prelude.{◌≡◌, ◌+◌, ◌++◌, ◌≤◌, if◌then◌else◌, length, None, Some, OnOk, IfErr};
ghost use Rattle.sd_model_live.specs.Port.{has_port};
ghost use Rattle.sd_model_outside.specs.Outside.{Host, opened};
ghost use Rattle.sd_model_settings.specs.Settings.{OutOfRange, SettingsFlaw};
ghost use Rattle.sd_model_call.specs.Call.{Misset, StopsAmong};
ghost use Rattle.sd_model_call.specs.Opening.{opened_all};
ghost use Rattle.sd_model_call.specs.Proxy.{line_readers, port_openings, proxy_flaw, proxy_openings, relay_openings};
ghost use Rattle.sd_model_call.specs.Server.{has_streams, stream_openings};
ghost use Rattle.sd_opening.specs.Answers.{answer_of};
ghost use Rattle.sd_opening.specs.World.{SameRest, world_of};

use crate::opening::{open_peers, open_where};
use crate::server_opening::{host_address, open_packets, open_streams, reads_streams};
use crate::status::{Part, Status};
use crate::world::WorldOf;
use sd_config::{ConfigFault, Settings};
use sd_outside::Name;
use sd_plan::Node;
use sd_run::ObjectTypes;

/// How many wires the proxy has at most.
const MOST_WIRES: usize = 256;

/// The fault of a setting with this name that is out of range.
fn out_of_range(name: &[u8]) -> Status
    requires { length name.now ≤ 64 }
    ensures { answer_of result ≡ Misset (OutOfRange name.now) }
{
    let mut text = Name::new();
    text.try_extend_from_slice(name).unwrap();
    Status::Config(ConfigFault::OutOfRange { name: text })
}

/// How many readers of lines over TCP a proxy by these settings has: one, where these have a port.
fn line_readers(settings: &Settings) -> u16
    ensures { result ≡ line_readers settings.now }
{
    u16::from(reads_streams(settings))
}

/// How many runs of wires a proxy by these settings has: one for each receiver, and one for the reader of lines, where there is one.
fn wire_runs(settings: &Settings) -> u16
    ensures runs { result ≡ (settings.now).sizes.receivers + line_readers settings.now }
    ensures few { result ≤ 17 }
{
    u16::try_from(settings.receivers()).unwrap() + line_readers(settings)
}

/// Tests that settings are those of a proxy.
///
/// # Errors
///
/// `Config` where they name no node, or where the receivers, with the reader of lines, have more wires to the nodes than there may be.
pub fn check_fit(settings: &Settings) -> Result<(), Status>
    ensures fits { OnOk result (proxy_flaw settings.now ≡ None) }
    ensures refused { IfErr result (λ status. (flaw : SettingsFlaw) × (answer_of status ≡ Misset flaw) × (proxy_flaw settings.now ≡ Some flaw)) }
{
    let nodes = settings.nodes().len();
    if nodes == 0 {
        return Err(out_of_range(b"nodes"));
    }
    if usize::from(wire_runs(settings)) * nodes > MOST_WIRES {
        return Err(out_of_range(b"receivers"));
    }
    Ok(())
}

/// Opens a source for each receiver of the proxy, and a run of wires, with one to each node, for each receiver and for the reader of
/// lines, where there is one.
///
/// # Errors
///
/// `OpenFault` where one failed, and `OutOfMemory`.
fn open_relays<K: ObjectTypes>(settings: &Settings, world: &mut WorldOf<K>) -> Result<(), Status>
    requires fits { proxy_flaw settings.now ≡ None }
    requires packets { 16 ≤ length (world.old).packets.items }
    requires wires { 256 ≤ length (world.old).wires.items }
    ensures opened { OnOk result (world_of K.R.seen K.O.seen K.B.seen K.D.seen K.L.seen K.E.seen K.P.seen K.Q.seen K.S.seen world.new
        ≡ opened_all (world_of K.R.seen K.O.seen K.B.seen K.D.seen K.L.seen K.E.seen K.P.seen K.Q.seen K.S.seen world.old) (relay_openings settings.now)) }
    ensures refused { IfErr result (λ status. StopsAmong (relay_openings settings.now) (answer_of status)
        (world_of K.R.seen K.O.seen K.B.seen K.D.seen K.L.seen K.E.seen K.P.seen K.Q.seen K.S.seen world.old)
        (world_of K.R.seen K.O.seen K.B.seen K.D.seen K.L.seen K.E.seen K.P.seen K.Q.seen K.S.seen world.new)) }
    ensures packets { length (world.new).packets.items ≡ length (world.old).packets.items }
    ensures wires { length (world.new).wires.items ≡ length (world.old).wires.items }
    ensures door { (world.new).door ≡ (world.old).door }
    ensures streams { (world.new).streams ≡ (world.old).streams }
    ensures rest { SameRest world.old world.new }
    ensures backs { (world.new).backs ≡ (world.old).backs }
{
    let runs = wire_runs(settings);
    open_packets::<K>(settings, world)?;
    open_peers::<Node, K>(runs, settings.nodes(), world)
}

/// Whether a proxy by these settings has a port.
pub(crate) fn has_port(settings: &Settings) -> bool
    ensures { result ≡ has_port settings.now }
{
    settings.proxy_mgmt_port() > 0
}

/// Opens the door of the proxy's port, where it has one.
///
/// # Errors
///
/// `OpenFault` where it failed, and `OutOfMemory`.
fn open_port<K: ObjectTypes>(settings: &Settings, world: &mut WorldOf<K>) -> Result<(), Status>
    ensures opened { OnOk result (world_of K.R.seen K.O.seen K.B.seen K.D.seen K.L.seen K.E.seen K.P.seen K.Q.seen K.S.seen world.new
        ≡ opened_all (world_of K.R.seen K.O.seen K.B.seen K.D.seen K.L.seen K.E.seen K.P.seen K.Q.seen K.S.seen world.old) (port_openings settings.now)) }
    ensures refused { IfErr result (λ status. StopsAmong (port_openings settings.now) (answer_of status)
        (world_of K.R.seen K.O.seen K.B.seen K.D.seen K.L.seen K.E.seen K.P.seen K.Q.seen K.S.seen world.old)
        (world_of K.R.seen K.O.seen K.B.seen K.D.seen K.L.seen K.E.seen K.P.seen K.Q.seen K.S.seen world.new)) }
    ensures door { OnOk result (K.E.seen (world.new).door ≡ (if has_port settings.now then opened (Host (settings.now).addresses.mgmt_address (settings.now).transport.proxy_mgmt_port) (K.E.seen (world.old).door) else K.E.seen (world.old).door)) }
    ensures packets { (world.new).packets ≡ (world.old).packets }
    ensures wires { (world.new).wires ≡ (world.old).wires }
    ensures streams { (world.new).streams ≡ (world.old).streams }
    ensures backs { (world.new).backs ≡ (world.old).backs }
    ensures rest { SameRest world.old world.new }
{
    let door = host_address(settings.mgmt_address(), settings.proxy_mgmt_port());
    open_where(has_port(settings), &mut world.door, &door, Part::Door)
}

/// Opens the doors of the proxy: that of lines over TCP, and then that of its port, where it has them.
///
/// # Errors
///
/// `OpenFault` where one failed, and `OutOfMemory`.
fn open_proxy_doors<K: ObjectTypes>(
    settings: &Settings,
    world: &mut WorldOf<K>,
) -> Result<(), Status>
    ensures opened { OnOk result (world_of K.R.seen K.O.seen K.B.seen K.D.seen K.L.seen K.E.seen K.P.seen K.Q.seen K.S.seen world.new
        ≡ opened_all (world_of K.R.seen K.O.seen K.B.seen K.D.seen K.L.seen K.E.seen K.P.seen K.Q.seen K.S.seen world.old) (stream_openings settings.now ++ port_openings settings.now)) }
    ensures refused { IfErr result (λ status. StopsAmong (stream_openings settings.now ++ port_openings settings.now) (answer_of status)
        (world_of K.R.seen K.O.seen K.B.seen K.D.seen K.L.seen K.E.seen K.P.seen K.Q.seen K.S.seen world.old)
        (world_of K.R.seen K.O.seen K.B.seen K.D.seen K.L.seen K.E.seen K.P.seen K.Q.seen K.S.seen world.new)) }
    ensures packets { (world.new).packets ≡ (world.old).packets }
    ensures wires { (world.new).wires ≡ (world.old).wires }
    ensures door { OnOk result (K.E.seen (world.new).door ≡ (if has_port settings.now then opened (Host (settings.now).addresses.mgmt_address (settings.now).transport.proxy_mgmt_port) (K.E.seen (world.old).door) else K.E.seen (world.old).door)) }
    ensures streams { OnOk result (K.S.seen (world.new).streams ≡ (if has_streams settings.now then opened (Host (settings.now).addresses.address (settings.now).transport.tcp_port) (K.S.seen (world.old).streams) else K.S.seen (world.old).streams)) }
    ensures rest { SameRest world.old world.new }
    ensures backs { (world.new).backs ≡ (world.old).backs }
{
    open_streams::<K>(settings, world)?;
    open_port::<K>(settings, world)
}

/// Opens all parts of the proxy, in their order: what its receivers use, the door of lines over TCP, and then the door of its port.
///
/// # Errors
///
/// `OpenFault` where one failed, and `OutOfMemory`.
pub fn open_proxy<K: ObjectTypes>(settings: &Settings, world: &mut WorldOf<K>) -> Result<(), Status>
    requires fits { proxy_flaw settings.now ≡ None }
    requires packets { 16 ≤ length (world.old).packets.items }
    requires wires { 256 ≤ length (world.old).wires.items }
    ensures opened { OnOk result (world_of K.R.seen K.O.seen K.B.seen K.D.seen K.L.seen K.E.seen K.P.seen K.Q.seen K.S.seen world.new
        ≡ opened_all (world_of K.R.seen K.O.seen K.B.seen K.D.seen K.L.seen K.E.seen K.P.seen K.Q.seen K.S.seen world.old) (proxy_openings settings.now)) }
    ensures refused { IfErr result (λ status. StopsAmong (proxy_openings settings.now) (answer_of status)
        (world_of K.R.seen K.O.seen K.B.seen K.D.seen K.L.seen K.E.seen K.P.seen K.Q.seen K.S.seen world.old)
        (world_of K.R.seen K.O.seen K.B.seen K.D.seen K.L.seen K.E.seen K.P.seen K.Q.seen K.S.seen world.new)) }
    ensures packets { length (world.new).packets.items ≡ length (world.old).packets.items }
    ensures wires { length (world.new).wires.items ≡ length (world.old).wires.items }
    ensures door { OnOk result (K.E.seen (world.new).door ≡ (if has_port settings.now then opened (Host (settings.now).addresses.mgmt_address (settings.now).transport.proxy_mgmt_port) (K.E.seen (world.old).door) else K.E.seen (world.old).door)) }
    ensures streams { OnOk result (K.S.seen (world.new).streams ≡ (if has_streams settings.now then opened (Host (settings.now).addresses.address (settings.now).transport.tcp_port) (K.S.seen (world.old).streams) else K.S.seen (world.old).streams)) }
    ensures rest { SameRest world.old world.new }
    ensures backs { (world.new).backs ≡ (world.old).backs }
{
    open_relays::<K>(settings, world)?;
    open_proxy_doors::<K>(settings, world)
}
