//! The proxy, from its settings to its answer.
ghost use Rattle.std.specs.Prelude.{◌≡◌, ◌+◌, ◌++◌, ◌<◌, ◌≤◌, ◌^◌, ◌∷◌, [], false, length, map, None, IfOk, IfErr};
ghost use Rattle.std.specs.List.{list_any};
ghost use Rattle.sd_model_call.specs.Call.{StopsAmong, WritesTotals};
ghost use Rattle.sd_model_call.specs.Proxy.{ProxyAccounts, proxy_flaw, proxy_openings};
ghost use Rattle.sd_model_call.specs.Server.{reached_limit};
ghost use Rattle.sd_proxy_desk.specs.Checking.{end_view};
ghost use Rattle.sd_serve.specs.Serving.{end_of};
ghost use Rattle.sd_opening.specs.Answers.{answer_of};
ghost use Rattle.sd_top.specs.Relaying.{HasRelayed, relay_answer, relay_lines};
ghost use Rattle.sd_opening.specs.World.{world_of};

use crate::ends::{any_reached_limit, by_receivers, by_turns, cut};
use log::{LevelFilter, Logged};
use sd_admin::push_total;
use sd_config::Settings;
use sd_decimal::Line;
use sd_opening::{
    Part, Status, WorldOf, check_fit, has_threads, open_proxy, read_settings, reads_streams,
    tell_end, tell_proxy, tell_unfit, tell_unopened, tell_unread, threads_of_proxy, use_named,
};
use sd_outside::{Address, Beat, Ended, Failed, Interval, Name, Sink, write_all};
use sd_proxy::{CheckEnd, Checked};
use sd_relay::{ProxySums, RelayParts, RelayRoom, Relayed, relay};
use sd_run::ObjectTypes;
use std::alloc::Global;
use std::sync::Wait;
use std::thread::Threads;
use std::time;

/// Takes the room of the proxy by these settings, opens its parts, starts the beat, and runs the proxy until its receivers, its checker,
/// its port and its reader of lines have ended.
///
/// # Errors
///
/// `OpenFault` where a part couldn't be opened, and `OutOfMemory`.
fn run_proxy<K: ObjectTypes, X: Threads + Wait + time::Clock + Sync>(
    rt: &X,
    alloc: Global,
    settings: &Settings,
    world: &mut WorldOf<K>,
) -> Result<Relayed, Status>
    requires fits { proxy_flaw settings.now ≡ None }
    requires packets { 16 ≤ length (world.old).packets.items }
    requires wires { 256 ≤ length (world.old).wires.items }
    requires door { ((K.E.seen (world.old).door).is_out ≡ false) × ((K.E.seen (world.old).door).turns < 2 ^ 62) }
    requires streams { ((K.S.seen (world.old).streams).is_out ≡ false) × ((K.S.seen (world.old).streams).turns < 2 ^ 62) }
    ensures relayed { IfOk result (HasRelayed settings.now
        (world_of K.R.seen K.O.seen K.B.seen K.D.seen K.L.seen K.E.seen K.P.seen K.Q.seen K.S.seen world.old)
        (world_of K.R.seen K.O.seen K.B.seen K.D.seen K.L.seen K.E.seen K.P.seen K.Q.seen K.S.seen world.new)) }
    ensures few { IfOk result (λ relayed. length relayed.received.items ≤ 16) }
    ensures refused { IfErr result (λ status. StopsAmong (proxy_openings settings.now) (answer_of status)
        (world_of K.R.seen K.O.seen K.B.seen K.D.seen K.L.seen K.E.seen K.P.seen K.Q.seen K.S.seen world.old)
        (world_of K.R.seen K.O.seen K.B.seen K.D.seen K.L.seen K.E.seen K.P.seen K.Q.seen K.S.seen world.new)) }
{
    let receivers = u16::try_from(settings.receivers()).unwrap();
    let Ok(room) = RelayRoom::open(
        alloc,
        settings.nodes(),
        receivers,
        reads_streams(settings),
        settings.cache_size(),
        settings.batch_bytes(),
    ) else {
        return Err(Status::OutOfMemory);
    };
    open_proxy::<K>(settings, world)?;
    world.beat.start(Interval {
        ms: settings.check_interval(),
        is_aligned: false,
    });
    tell_proxy(&world.log, settings);
    let rt = Logged::new(rt, LevelFilter::Trace, &world.log);
    let mut parts = RelayParts {
        packets: &mut world.packets,
        wires: &mut world.wires,
        lines: &mut world.streams,
        beat: &mut world.beat,
        probe: &mut world.probe,
        door: &mut world.door,
    };
    Ok(relay(&rt, room, settings, &mut parts, &world.gate))
}

/// Whether a checker ended since it took the most turns.
fn checker_reached_limit(ended: CheckEnd) -> bool
    ensures { result ≡ reached_limit (end_view ended) }
{
    matches!(ended, CheckEnd::Worn { .. })
}

/// Whether a receiver or the checker ended so.
fn some_reached_limit(received: &[Ended], checked: &Checked) -> bool
    ensures { result ≡ list_any reached_limit (map end_of received.now ++ end_view (checked.now).ended ∷ []) }
{
    any_reached_limit(received) || checker_reached_limit(checked.ended)
}

/// How a run is answered whose receivers and whose checker ended so, where its totals are written.
fn status_after(received: &[Ended], checked: &Checked) -> Status
    requires { length received.now ≤ 16 }
    ensures { answer_of result ≡ relay_answer received.now checked.now }
{
    let by_beat = match checked.ended {
        CheckEnd::Failed => Status::ReadFault { part: Part::Beat },
        _ => by_turns(some_reached_limit(received, checked)),
    };
    by_receivers(0, received, by_beat)
}

/// The lines of the totals.
fn totals_text(sums: &ProxySums, checked: &Checked) -> Line
    ensures { result.items ≡ relay_lines sums.now checked.now }
{
    let mut line = Line::new();
    push_total(b"packets", sums.packets, &mut line);
    push_total(b"lines", sums.lines, &mut line);
    push_total(b"bad", sums.bad, &mut line);
    push_total(b"sent", sums.sent, &mut line);
    push_total(b"unowned", sums.unowned, &mut line);
    push_total(b"send_faults", sums.send_faults, &mut line);
    push_total(b"checks", u128::from(checked.checks), &mut line);
    push_total(b"probe_faults", u128::from(checked.probe_faults), &mut line);
    line
}

/// Writes the totals of a run, and answers how it ended.
fn finish<O: Sink>(relayed: &Relayed, output: &mut O) -> Status
    requires { length (relayed.now).received.items ≤ 16 }
    ensures { WritesTotals (relay_lines (relayed.now).sums (relayed.now).checked) (relay_answer (relayed.now).received.items (relayed.now).checked)
        (answer_of result) (O.seen output.old) (O.seen output.new) }
{
    let status = status_after(&relayed.received, &relayed.checked);
    match write_all(
        output,
        totals_text(&relayed.sums, &relayed.checked).as_slice(),
    ) {
        Ok(()) => status,
        Err(Failed) => cut(status),
    }
}

/// Reads a settings file, and runs the proxy by the settings.
pub(crate) fn proxy_files<K: ObjectTypes, X: Threads + Wait + time::Clock + Sync>(
    rt: &X,
    alloc: Global,
    settings: Name,
    world: &mut WorldOf<K>,
) -> Status
    requires packets { 16 ≤ length (world.old).packets.items }
    requires wires { 256 ≤ length (world.old).wires.items }
    requires door { ((K.E.seen (world.old).door).is_out ≡ false) × ((K.E.seen (world.old).door).turns < 2 ^ 62) }
    requires streams { ((K.S.seen (world.old).streams).is_out ≡ false) × ((K.S.seen (world.old).streams).turns < 2 ^ 62) }
    ensures { ProxyAccounts settings.items (answer_of result)
        (world_of K.R.seen K.O.seen K.B.seen K.D.seen K.L.seen K.E.seen K.P.seen K.Q.seen K.S.seen world.old)
        (world_of K.R.seen K.O.seen K.B.seen K.D.seen K.L.seen K.E.seen K.P.seen K.Q.seen K.S.seen world.new) }
{
    let at = Address::File(settings);
    let settings = match read_settings(alloc, &world.log, &mut world.settings, &at) {
        Ok(settings) => settings,
        Err(status) => {
            tell_unread(&world.log, &at, &status);
            return status;
        }
    };
    if let Err(status) = check_fit(&settings) {
        tell_unfit(&world.log, alloc, &at, &status);
        return status;
    }
    use_named(&mut world.backs, &settings);
    if !has_threads(rt, &world.log, threads_of_proxy(&settings)) {
        return Status::OutOfMemory;
    }
    match run_proxy::<K, X>(rt, alloc, &settings, world) {
        Ok(relayed) => {
            let status = finish(&relayed, &mut world.output);
            let totals = totals_text(&relayed.sums, &relayed.checked);
            tell_end(&world.log, &status, &totals);
            status
        }
        Err(status) => {
            tell_unopened(&world.log, &settings, settings.proxy_mgmt_port(), &status);
            status
        }
    }
}
