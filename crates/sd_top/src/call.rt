ghost use Rattle.std.specs.Prelude.{◌≡◌, ◌<◌, ◌≤◌, ◌^◌, false, length, map, string_bytes, IfOk, IfErr};
ghost use Rattle.sd_replay.specs.Replayed.{Replayed};
ghost use Rattle.sd_model_replay.specs.Replay.{is_used};
ghost use Rattle.sd_model_call.specs.Opening.{replay_openings, opened_all};
ghost use Rattle.sd_model_call.specs.Call.{Accounts, StopsAmong, form};
ghost use Rattle.sd_model_call.specs.Server.{AnswersServer};
ghost use Rattle.sd_model_call.specs.Proxy.{AnswersProxy};
ghost use Rattle.sd_replay.specs.Ends.{end_of};
ghost use Rattle.sd_opening.specs.Answers.{answer_of};
ghost use Rattle.sd_top.specs.Replaying.{IsReplay};
ghost use Rattle.sd_opening.specs.World.{world_of};

use crate::drill::drill;
use crate::ends::status_of;
use crate::proxy::proxy_files;
use crate::server::serve_files;
use log::Log;
use log::sink::Discard;
use sd_config::Settings;
use sd_opening::{Form, Status, World, WorldOf, form_of, open_replay, read_settings, use_named};
use sd_outside::{
    Address, Backend, Beat, Clock, Datagrams, Door, Gate, Name, Probe, Sink, Source, Wire,
};
use sd_replay::{ReplayEnd, ReplayRoom, replay};
use sd_run::{ObjectTypes, ObjectTypesOf};
use std::alloc::Global;
use std::random::RandomSource;
use std::sync::Wait;
use std::thread::Threads;
use std::time;

/// Opens what a replay by these settings uses, and executes the script.
///
/// # Errors
///
/// `OpenFault` where an object failed, and `OutOfMemory`.
fn execute<K: ObjectTypes>(
    alloc: Global,
    settings: &Settings,
    script: Name,
    world: &mut WorldOf<K>,
) -> Result<ReplayEnd, Status>
    requires uses { (world_of K.R.seen K.O.seen K.B.seen K.D.seen K.L.seen K.E.seen K.P.seen K.Q.seen K.S.seen world.old).uses ≡ is_used settings.now }
    requires wires { 256 ≤ length (world.old).wires.items }
    ensures end { IfOk result (λ end. Replayed settings.now (end_of end)
        (opened_all (world_of K.R.seen K.O.seen K.B.seen K.D.seen K.L.seen K.E.seen K.P.seen K.Q.seen K.S.seen world.old) (replay_openings script.items settings.now)).seen
        (world_of K.R.seen K.O.seen K.B.seen K.D.seen K.L.seen K.E.seen K.P.seen K.Q.seen K.S.seen world.new).seen) }
    ensures refused { IfErr result (λ status. StopsAmong (replay_openings script.items settings.now) (answer_of status)
        (world_of K.R.seen K.O.seen K.B.seen K.D.seen K.L.seen K.E.seen K.P.seen K.Q.seen K.S.seen world.old)
        (world_of K.R.seen K.O.seen K.B.seen K.D.seen K.L.seen K.E.seen K.P.seen K.Q.seen K.S.seen world.new)) }
    ensures settings { (world.new).settings ≡ (world.old).settings }
    ensures packets { (world.new).packets ≡ (world.old).packets }
    ensures door { (world.new).door ≡ (world.old).door }
    ensures streams { (world.new).streams ≡ (world.old).streams }
    ensures beat { (world.new).beat ≡ (world.old).beat }
    ensures probe { (world.new).probe ≡ (world.old).probe }
    ensures same_use { (world_of K.R.seen K.O.seen K.B.seen K.D.seen K.L.seen K.E.seen K.P.seen K.Q.seen K.S.seen world.new).uses ≡ (world_of K.R.seen K.O.seen K.B.seen K.D.seen K.L.seen K.E.seen K.P.seen K.Q.seen K.S.seen world.old).uses }
{
    let Ok(room) = ReplayRoom::open(alloc, settings) else {
        return Err(Status::OutOfMemory);
    };
    open_replay::<K>(settings, script, world)?;
    Ok(replay(
        settings,
        room,
        &mut world.script,
        &mut world.output,
        &mut world.backs,
        &mut world.wires,
    ))
}

/// Reads a settings file, and executes a script by the settings.
fn replay_files<K: ObjectTypes>(
    alloc: Global,
    settings: Name,
    script: Name,
    world: &mut WorldOf<K>,
) -> Status
    requires wires { 256 ≤ length (world.old).wires.items }
    ensures { IsReplay settings.items script.items (answer_of result)
        (world_of K.R.seen K.O.seen K.B.seen K.D.seen K.L.seen K.E.seen K.P.seen K.Q.seen K.S.seen world.old)
        (world_of K.R.seen K.O.seen K.B.seen K.D.seen K.L.seen K.E.seen K.P.seen K.Q.seen K.S.seen world.new) }
{
    let settings = match read_settings(
        alloc,
        &Discard,
        &mut world.settings,
        &Address::File(settings),
    ) {
        Ok(settings) => settings,
        Err(status) => return status,
    };
    use_named(&mut world.backs, &settings);
    match execute::<K>(alloc, &settings, script, world) {
        Ok(end) => status_of(end),
        Err(status) => status,
    }
}

/// Executes what the words ask for.
///
/// `drill N` executes the made script of N packets by the settings of an empty file, and writes the totals and the number of
/// Graphite's bytes to the output.
///
/// `replay SETTINGS SCRIPT` reads the settings file and executes the script: each packet is sent on as it came to the targets
/// of the repeater, where the settings name it, and its samples are filed; each flush gives the backends that they name the
/// record's text; and the output gets the reply to each admin command. It gets the totals at the script's end. Once the
/// settings are accepted, just those backends are used that they name.
///
/// `serve SETTINGS` reads the settings file, opens what they name, and runs receivers, the flusher, the keepers of the doors and
/// the workers of outlets side by side until all have ended; then it makes a last round, and the output gets the totals.
///
/// `proxy SETTINGS` reads the settings file, and sends each line of the datagrams to the node that owns its name among those that
/// the checker finds up, until all sources and the beat have ended; then the output gets the totals.
pub fn statsd<
    R: Source,
    O: Sink,
    B: Backend + Send,
    D: Datagrams + Send + Drop,
    L: Wire + Send + Drop,
    E: Door<Asking: Send, Telling: Send> + Send,
    P: Beat + Send,
    G: Gate + Sync,
    T: Clock + Sync,
    Q: Probe + Send,
    S: Door<Asking: Send, Telling: Send> + Send,
    W: Log + Sync,
    X: Threads + Wait + RandomSource + time::Clock + Sync,
>(
    rt: &X,
    alloc: Global,
    words: &[String],
    world: &mut World<R, O, B, D, L, E, P, G, T, Q, S, W>,
) -> Status
    requires packets { 16 ≤ length (world.old).packets.items }
    requires wires { 256 ≤ length (world.old).wires.items }
    requires beat { (P.seen (world.old).beat).turns < 2 ^ 62 }
    requires door { ((E.seen (world.old).door).is_out ≡ false) × ((E.seen (world.old).door).turns < 2 ^ 62) }
    requires streams { ((S.seen (world.old).streams).is_out ≡ false) × ((S.seen (world.old).streams).turns < 2 ^ 62) }
    ensures accounting { Accounts (map (λ w. string_bytes w) words.now)
        (world_of R.seen O.seen B.seen D.seen L.seen E.seen P.seen Q.seen S.seen world.old)
        (world_of R.seen O.seen B.seen D.seen L.seen E.seen P.seen Q.seen S.seen world.new)
        (answer_of result) }
    ensures serving { AnswersServer (form (map (λ w. string_bytes w) words.now)) (T.may_say (world.old).clock) (answer_of result)
        (world_of R.seen O.seen B.seen D.seen L.seen E.seen P.seen Q.seen S.seen world.old)
        (world_of R.seen O.seen B.seen D.seen L.seen E.seen P.seen Q.seen S.seen world.new) }
    ensures proxying { AnswersProxy (form (map (λ w. string_bytes w) words.now)) (answer_of result)
        (world_of R.seen O.seen B.seen D.seen L.seen E.seen P.seen Q.seen S.seen world.old)
        (world_of R.seen O.seen B.seen D.seen L.seen E.seen P.seen Q.seen S.seen world.new) }
{
    match form_of(words) {
        Some(Form::Replay { settings, script }) => {
            replay_files::<ObjectTypesOf<R, O, B, D, L, E, P, G, T, Q, S, W>>(
                alloc, settings, script, world,
            )
        }
        Some(Form::Serve { settings }) => {
            serve_files::<ObjectTypesOf<R, O, B, D, L, E, P, G, T, Q, S, W>, X>(
                rt, alloc, settings, world,
            )
        }
        Some(Form::Proxy { settings }) => {
            proxy_files::<ObjectTypesOf<R, O, B, D, L, E, P, G, T, Q, S, W>, X>(
                rt, alloc, settings, world,
            )
        }
        Some(Form::Drill { packets }) => drill(alloc, packets, &mut world.output),
        None => Status::Usage,
    }
}
