//! A server, from its settings to its answer.
ghost use Rattle.std.specs.Prelude.{◌≡◌, ◌<◌, ◌≤◌, ◌^◌, false, length, IfOk, IfErr};
ghost use Rattle.sd_model_replay.specs.Replay.{is_used, limits_of, policy_of, targets_of};
ghost use Rattle.sd_model_call.specs.Server.{ServerAccounts, objects_in, server_openings, run_settings_of, begun_with};
ghost use Rattle.sd_model_call.specs.Call.{StopsAmong};
ghost use Rattle.sd_serve.specs.Room.{AreSizes, sizing_of};
ghost use Rattle.sd_serve.specs.Serving.{HasServed};
ghost use Rattle.sd_opening.specs.Answers.{answer_of};
ghost use Rattle.sd_top.specs.Serving.{sizing_by};
ghost use Rattle.sd_opening.specs.World.{world_of};

use crate::server_end::{finish, totals_lines};
use log::{LevelFilter, Logged};
use sd_config::{NamesOf, Settings};
use sd_flush::RecordForm;
use sd_opening::{
    Status, WorldOf, has_threads, open_server, read_settings, reads_streams, tell_end, tell_server,
    tell_unopened, tell_unread, threads_of_server, use_named,
};
use sd_outside::{Address, Beat, Clock, Interval, Name};
use sd_plan::Names;
use sd_run::{ObjectTypes, limits_of, policy_of, targets_of};
use sd_serve::{RunSettings, Served, ServerObjects, ServerRoom, Sizes, serve};
use std::alloc::Global;
use std::random::RandomSource;
use std::sync::Wait;
use std::thread::Threads;
use std::time;

/// What a server is opened for, by these settings.
fn sizes_of(settings: &Settings) -> Sizes
    ensures sizes { sizing_of result ≡ sizing_by settings.now }
    ensures range { AreSizes (sizing_of result) }
{
    Sizes {
        limits: limits_of(settings),
        policy: policy_of(settings),
        shards: u16::try_from(settings.shards()).unwrap(),
        receivers: u16::try_from(settings.receivers()).unwrap(),
        wires: u16::try_from(targets_of(settings).len()).unwrap(),
        streams: reads_streams(settings),
        outlets: settings.outlets(),
        outlet_bytes: settings.outlet_bytes(),
    }
}

/// A number that nobody outside knows, for the hashes by which rows are found; 0 where the system gives no bytes for it.
fn seed_of<X: RandomSource>(rt: &X) -> u64 {
    let mut bytes = [0; 8];
    match rt.fill_bytes(&mut bytes) {
        Ok(()) => u64::from_le_bytes(bytes),
        Err(_) => 0,
    }
}

/// Takes the room of a server by these settings, opens its parts, starts the beat, and runs the server until its workers have
/// ended and its last round is made.
///
/// # Errors
///
/// `OpenFault` where a part couldn't be opened, and `OutOfMemory`.
pub(crate) fn run_server<K: ObjectTypes, X: Threads + Wait + RandomSource + time::Clock + Sync>(
    rt: &X,
    alloc: Global,
    settings: &Settings,
    world: &mut WorldOf<K>,
) -> Result<Served, Status>
    requires uses { (world_of K.R.seen K.O.seen K.B.seen K.D.seen K.L.seen K.E.seen K.P.seen K.Q.seen K.S.seen world.old).uses ≡ is_used settings.now }
    requires packets { 16 ≤ length (world.old).packets.items }
    requires wires { 256 ≤ length (world.old).wires.items }
    requires beat { (K.P.seen (world.old).beat).turns < 2 ^ 62 }
    requires door { ((K.E.seen (world.old).door).is_out ≡ false) × ((K.E.seen (world.old).door).turns < 2 ^ 62) }
    requires streams { ((K.S.seen (world.old).streams).is_out ≡ false) × ((K.S.seen (world.old).streams).turns < 2 ^ 62) }
    ensures served { IfOk result (HasServed (run_settings_of settings.now) (K.T.may_say (world.old).clock)
        (objects_in (begun_with (server_openings settings.now) (record { ms = settings.now.server.flush_interval; is_aligned = settings.now.transport.align_flushes }) (world_of K.R.seen K.O.seen K.B.seen K.D.seen K.L.seen K.E.seen K.P.seen K.Q.seen K.S.seen world.old)))
        (objects_in (world_of K.R.seen K.O.seen K.B.seen K.D.seen K.L.seen K.E.seen K.P.seen K.Q.seen K.S.seen world.new))) }
    ensures few { IfOk result (λ served. length served.received.items ≤ 16) }
    ensures settings { (world.new).settings ≡ (world.old).settings }
    ensures script { (world.new).script ≡ (world.old).script }
    ensures output { (world.new).output ≡ (world.old).output }
    ensures probe { (world.new).probe ≡ (world.old).probe }
    ensures same_use { (world_of K.R.seen K.O.seen K.B.seen K.D.seen K.L.seen K.E.seen K.P.seen K.Q.seen K.S.seen world.new).uses ≡ (world_of K.R.seen K.O.seen K.B.seen K.D.seen K.L.seen K.E.seen K.P.seen K.Q.seen K.S.seen world.old).uses }
    ensures refused { IfErr result (λ status. StopsAmong (server_openings settings.now) (answer_of status)
        (world_of K.R.seen K.O.seen K.B.seen K.D.seen K.L.seen K.E.seen K.P.seen K.Q.seen K.S.seen world.old)
        (world_of K.R.seen K.O.seen K.B.seen K.D.seen K.L.seen K.E.seen K.P.seen K.Q.seen K.S.seen world.new)) }
{
    let start = world.clock.now();
    let Ok(room) = ServerRoom::open(alloc, sizes_of(settings), start, seed_of(rt)) else {
        return Err(Status::OutOfMemory);
    };
    open_server::<K>(settings, world)?;
    world.beat.start(Interval {
        ms: settings.flush_interval(),
        is_aligned: settings.align_flushes(),
    });
    let names = Names::of(settings);
    tell_server(&world.log, settings);
    let rt = Logged::new(rt, LevelFilter::Trace, &world.log);
    let run_settings = RunSettings {
        settings,
        form: RecordForm {
            plan: settings.plan(),
            names: &names,
        },
        run_flushes: u64::from(settings.run_flushes()),
        gate: &world.gate,
        clock: &world.clock,
    };
    let mut objects = ServerObjects {
        beat: &mut world.beat,
        backs: &mut world.backs,
        door: &mut world.door,
        streams: &mut world.streams,
    };
    Ok(serve::<K, Logged<&X, &K::W>>(
        &rt,
        room,
        &run_settings,
        &mut world.packets,
        &mut world.wires,
        &mut objects,
    ))
}

/// Reads a settings file, and runs the server by the settings.
pub(crate) fn serve_files<K: ObjectTypes, X: Threads + Wait + RandomSource + time::Clock + Sync>(
    rt: &X,
    alloc: Global,
    settings: Name,
    world: &mut WorldOf<K>,
) -> Status
    requires packets { 16 ≤ length (world.old).packets.items }
    requires wires { 256 ≤ length (world.old).wires.items }
    requires beat { (K.P.seen (world.old).beat).turns < 2 ^ 62 }
    requires door { ((K.E.seen (world.old).door).is_out ≡ false) × ((K.E.seen (world.old).door).turns < 2 ^ 62) }
    requires streams { ((K.S.seen (world.old).streams).is_out ≡ false) × ((K.S.seen (world.old).streams).turns < 2 ^ 62) }
    ensures { ServerAccounts settings.items (K.T.may_say (world.old).clock) (answer_of result)
        (world_of K.R.seen K.O.seen K.B.seen K.D.seen K.L.seen K.E.seen K.P.seen K.Q.seen K.S.seen world.old)
        (world_of K.R.seen K.O.seen K.B.seen K.D.seen K.L.seen K.E.seen K.P.seen K.Q.seen K.S.seen world.new) }
{
    let at = Address::File(settings);
    let settings = match read_settings(alloc, &world.log, &mut world.settings, &at) {
        Ok(settings) => settings,
        Err(status) => {
            tell_unread(&world.log, &at, &status);
            return status;
        }
    };
    use_named(&mut world.backs, &settings);
    if !has_threads(rt, &world.log, threads_of_server(&settings)) {
        return Status::OutOfMemory;
    }
    match run_server::<K, X>(rt, alloc, &settings, world) {
        Ok(served) => {
            let status = finish(&served, &mut world.output);
            tell_end(&world.log, &status, &totals_lines(&served));
            status
        }
        Err(status) => {
            tell_unopened(&world.log, &settings, settings.mgmt_port(), &status);
            status
        }
    }
}
