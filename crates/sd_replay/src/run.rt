ghost use Rattle.std.specs.Prelude.{◌≡◌, ◌≢◌, ◌≤◌, ◌<◌, ◌^◌, ℕ, length, map, sum_by, OnErr, IfOk};
ghost use Rattle.sd_model_outside.specs.Outside.{HasFailedBehind, given};
ghost use Rattle.sd_model_shard.specs.History.{dropped_in};
ghost use Rattle.sd_model_record.specs.Desk.{new_desk};
ghost use Rattle.sd_model_replay.specs.Replay.{targets_of, is_used, replies_to, states_after};
ghost use Rattle.sd_model_replay.specs.Script.{Packet};
ghost use Rattle.sd_model_record.specs.Totals.{totals_text};
ghost use Rattle.sd_replay.specs.Replayed.{Replayed};
ghost use Rattle.sd_shards.specs.Shards.{AreAlike, group_bounds, state_at};
ghost use Rattle.sd_replay.specs.Ends.{end_of};
ghost use Rattle.sd_replay.specs.Room.{sizing_of};
ghost use Rattle.sd_run.specs.Seen.{seen_of};
ghost use Rattle.sd_replay.specs.Start.{start_in};
ghost use Rattle.sd_replay.specs.Sent.{IsPlayed};
ghost use Rattle.sd_replay.specs.Totals.{totals_of_group};
ghost use Rattle.sd_admin.specs.Totals.{totals_view};
ghost use Rattle.sd_model_outside.specs.Backend.{Backend};
ghost use Rattle.sd_outside.specs.Backends.{uses};
ghost use Rattle.sd_model_text.specs.Lines.{pieces, bad_of};

use crate::fault::fault_at;
use crate::flush::flush;
use crate::room::ReplayRoom;
use sd_admin::{Totals, write_totals};
use sd_command::execute;
use sd_config::{NamesOf, Settings};
use sd_desk::{Desk, Tally};
use sd_epoch::Who;
use sd_outside::{Backend, Backs, Sink, Source, Wire, WriteFault};
use sd_plan::Names;
use sd_repeater::repeat;
use sd_run::targets_of;
use sd_script::{Item, ScriptFault};
use sd_shards::Shards;

/// How many records a replay executes at most.
const MOST_TURNS: u64 = 1 << 62;

/// How a replay ended.
#[derive(Clone, Copy, Debug, PartialEq, Eq)]
pub enum ReplayEnd {
    /// The script was read up to its end, and these totals were written.
    Ok(Totals),
    /// The script isn't legal: a record has a flaw.
    Script(ScriptFault),
    /// A read of the script failed.
    ReadFault,
    /// A reply or the totals couldn't be written whole.
    WriteFault,
    /// So many records were executed, the most that there may be.
    Worn { turns: u64 },
}

/// The totals of shards and a desk.
fn totals_of(shards: &Shards, desk: &Desk) -> Totals
    ensures { totals_view result ≡ totals_of_group shards.now desk.now }
{
    Totals::new(&shards.books(), &desk.facts())
}

/// Sends a datagram on each wire, files its samples, and counts it at its moment.
fn play_packet<L: Wire>(
    shards: &mut Shards,
    desk: &mut Desk,
    wires: &mut [L],
    who: u16,
    moment: u64,
    datagram: &[u8],
)
    requires datagram { length datagram.now ≤ 65507 }
    requires wires { length wires.old < 2 ^ 32 }
    ensures states { (i : ℕ) → i < length shards.old.states
        → state_at shards.new i ≡ states_after (group_bounds shards.old) (state_at shards.old) (Packet who moment datagram.now) i }
    ensures played { IsPlayed datagram.now
        (record { packets = 1; lines = length (pieces datagram.now); bad = bad_of datagram.now; dropped = (sum_by dropped_in (replies_to (group_bounds shards.old) (state_at shards.old) (Packet who moment datagram.now))) })
        moment (map L.seen wires.old) (map L.seen wires.new) desk.old desk.new }
    ensures alike { AreAlike shards.old shards.new }
{
    let failed = repeat(datagram, wires);
    let filed = shards.file(Who(who), datagram);
    let tally = Tally {
        packets: 1,
        lines: filed.lines,
        bad: filed.bad,
        dropped: filed.dropped,
    };
    desk.add(tally, moment);
    desk.repeater_faults(failed);
}

/// Writes the totals of shards and a desk, and answers them.
///
/// # Errors
///
/// `WriteFault` where the output failed. Then a prefix of their text was written.
fn finish<O: Sink>(shards: &Shards, desk: &Desk, output: &mut O) -> Result<Totals, WriteFault>
    ensures totals { IfOk result (λ totals. totals_view totals ≡ totals_of_group shards.now desk.now) }
    ensures written { IfOk result (λ totals. O.seen output.new ≡ given (totals_text (totals_view totals)) (O.seen output.old)) }
    ensures failed { OnErr result (HasFailedBehind (totals_text (totals_of_group shards.now desk.now)) (O.seen output.old) (O.seen output.new)) }
{
    let totals = totals_of(shards, desk);
    write_totals(&totals, output)?;
    Ok(totals)
}

/// When a script starts whose first record stands next: the moment of the record.
fn start_at(item: Item) -> u64
    ensures { result ≡ start_in item }
{
    match item {
        Item::Packet { moment, .. } | Item::Admin { moment } => moment,
        Item::Flush { ts } => ts,
        Item::End | Item::Fault(_) => 0,
    }
}

/// Begins the desk anew where the first record stands next, which tells when the script starts.
fn begin(desk: &mut Desk, turn: u64, item: Item)
    ensures first { turn ≡ 0 → desk.new ≡ new_desk (start_in item) }
    ensures later { turn ≢ 0 → desk.new ≡ desk.old }
{
    if turn == 0 {
        *desk = Desk::new(start_at(item));
    }
}

/// Executes a script, record by record, by settings that the room was opened for. Each packet is sent on the first wires,
/// one for each target of the repeater, where it is named; the backends that are used get each flush's record; and the output
/// gets the reply to each admin line, and the totals at the end.
pub fn replay<R: Source, O: Sink, B: Backend, L: Wire>(
    settings: &Settings,
    room: ReplayRoom,
    script: &mut R,
    output: &mut O,
    backs: &mut Backs<B>,
    wires: &mut [L],
) -> ReplayEnd
    requires room { room ≡ sizing_of settings.now }
    requires uses { (b : Backend) → uses backs.old b ≡ is_used settings.now b }
    requires wires { length (targets_of settings.now) ≤ length wires.old }
    ensures end { Replayed settings.now (end_of result)
        (seen_of R.seen O.seen B.seen L.seen script.old output.old backs.old wires.old)
        (seen_of R.seen O.seen B.seen L.seen script.new output.new backs.new wires.new) }
    ensures same_use { (b : Backend) → uses backs.new b ≡ uses backs.old b }
{
    let ReplayRoom {
        mut shards,
        mut scratch,
        mut keys,
        mut dump,
        mut reader,
    } = room;
    let mut desk = Desk::new(0);
    let names = Names::of(settings);
    let targets = targets_of(settings).len();
    for turn in 0..MOST_TURNS {
        let Ok(item) = reader.next(script) else {
            return ReplayEnd::ReadFault;
        };
        begin(&mut desk, turn, item);
        match item {
            Item::Packet { who, moment } => {
                let used = &mut wires[..targets];
                play_packet(&mut shards, &mut desk, used, who, moment, reader.body());
            }
            Item::Flush { ts } => {
                let _ = flush(
                    &mut shards,
                    &mut desk,
                    &mut scratch,
                    settings.plan(),
                    &names,
                    ts,
                    backs,
                );
            }
            Item::Admin { moment } => {
                let replied = execute(
                    &mut shards,
                    &mut desk,
                    &mut keys,
                    &mut dump,
                    settings,
                    moment,
                    reader.body(),
                    output,
                );
                if replied.is_err() {
                    return ReplayEnd::WriteFault;
                }
            }
            Item::End => {
                return match finish(&shards, &desk, output) {
                    Ok(totals) => ReplayEnd::Ok(totals),
                    Err(WriteFault) => ReplayEnd::WriteFault,
                };
            }
            Item::Fault(flaw) => return ReplayEnd::Script(fault_at(flaw, reader.at())),
        }
    }
    ReplayEnd::Worn { turns: MOST_TURNS }
}
