//! What a server tells once its run has ended: the totals, and the status.
ghost use Rattle.std.specs.Prelude.{◌≡◌, ◌+◌, ◌≤◌, ◌++◌, ◌∷◌, length, map};
ghost use Rattle.std.specs.Option.{option_to_list};
ghost use Rattle.std.specs.List.{list_any};
ghost use Rattle.sd_model_call.specs.Call.{WritesTotals};
ghost use Rattle.sd_model_call.specs.Server.{reached_limit};
ghost use Rattle.sd_model_record.specs.Totals.{totals_text as text_of};
ghost use Rattle.sd_admin.specs.Totals.{totals_view};
ghost use Rattle.sd_outside.specs.Backends.{at, kind_of};
ghost use Rattle.sd_serve.specs.Serving.{door_end_of, end_of};
ghost use Rattle.sd_opening.specs.Answers.{answer_of};
ghost use Rattle.sd_top.specs.Serving.{ends_of, lines_in, skips_in, totals_in};

use crate::ends::{any_reached_limit, by_receivers, by_turns, cut, took_most_turns};
use sd_admin::{Totals, push_total, totals_text};
use sd_decimal::Line;
use sd_desk::Desk;
use sd_opening::{Part, Status};
use sd_outside::{BACKENDS, DoorEnd, Ended, Failed, PerBackend, Sink, write_all};
use sd_serve::{Ends, OutCounts, Served};
use sd_shard::ShardBook;

/// The totals of shards with these numbers and of a desk, with what outlets counted, if there were any.
fn totals_of(books: &[ShardBook], desk: &Desk, outs: &Option<OutCounts>) -> Totals
    requires { length books.now ≤ 16 }
    ensures { totals_view result ≡ totals_in books.now desk.now outs.now }
{
    let facts = desk.facts();
    let totals = Totals::new(books, &facts);
    let Some(outs) = outs else {
        return totals;
    };
    Totals {
        faults: PerBackend::from_fn(
            |kind|
                ensures { result ≡ at facts.faults (kind_of kind) + (at outs.entry.now (kind_of kind)).worked.faults }
            { u128::from(*facts.faults.at(kind)) + u128::from(outs.at(kind).worked.faults) },
        ),
        ..totals
    }
}

/// The lines that are told of a run with these totals, and with what outlets counted, if there were any.
fn lines_of(totals: &Totals, outs: &Option<OutCounts>) -> Line
    ensures { result.items ≡ text_of (totals_view totals.now ++ skips_in outs.now) }
{
    let mut line = totals_text(totals);
    if let Some(outs) = outs {
        for &kind in &BACKENDS {
            let skipped = u128::from(outs.at(kind).skipped);
            push_total(kind.skipped_name(), skipped, &mut line);
        }
    }
    line
}

/// Whether the keeper of the door ended since it took the most turns.
fn keeper_reached_limit(ended: &DoorEnd) -> bool
    ensures { result ≡ reached_limit (door_end_of ended.now) }
{
    matches!(ended, DoorEnd::Worn { .. })
}

/// Whether the reader of lines did, if there is one.
fn line_reader_reached_limit(ended: &Option<DoorEnd>) -> bool
    ensures { result ≡ list_any reached_limit (map door_end_of (option_to_list ended.now)) }
{
    match ended {
        Some(ended) => keeper_reached_limit(ended),
        None => false,
    }
}

/// Whether a worker beside the receivers did.
fn other_reached_limit(ends: &Ends) -> bool
    ensures { result ≡ list_any reached_limit (end_of (ends.now).flusher.ended ∷ door_end_of (ends.now).keeper ∷ map door_end_of (option_to_list (ends.now).line_reader)) }
{
    took_most_turns(&ends.flusher.ended)
        || keeper_reached_limit(&ends.keeper)
        || line_reader_reached_limit(&ends.line_reader)
}

/// Whether any worker did.
fn some_reached_limit(received: &[Ended], ends: &Ends) -> bool
    ensures { result ≡ list_any reached_limit (map end_of received.now ++ end_of (ends.now).flusher.ended ∷ door_end_of (ends.now).keeper ∷ map door_end_of (option_to_list (ends.now).line_reader)) }
{
    any_reached_limit(received) || other_reached_limit(ends)
}

/// How a run is answered whose workers ended so, where its totals are written.
fn status_after(received: &[Ended], ends: &Ends) -> Status
    requires { length received.now ≤ 16 }
    ensures { answer_of result ≡ ends_of received.now ends.now }
{
    let by_beat = match ends.flusher.ended {
        Ended::Failed => Status::ReadFault { part: Part::Beat },
        _ => by_turns(some_reached_limit(received, ends)),
    };
    by_receivers(0, received, by_beat)
}

/// The lines of the totals of a run.
pub(crate) fn totals_lines(served: &Served) -> Line {
    let totals = totals_of(&served.books, &served.desk, &served.outs);
    lines_of(&totals, &served.outs)
}

/// Writes the totals of a run, and answers how it ended.
pub(crate) fn finish<O: Sink>(served: &Served, output: &mut O) -> Status
    requires { length (served.now).received.items ≤ 16 }
    ensures { WritesTotals (lines_in (served.now).books.items (served.now).desk (served.now).outs) (ends_of (served.now).received.items (served.now).ends)
        (answer_of result) (O.seen output.old) (O.seen output.new) }
{
    let status = status_after(&served.received, &served.ends);
    let totals = totals_of(&served.books, &served.desk, &served.outs);
    match write_all(output, lines_of(&totals, &served.outs).as_slice()) {
        Ok(()) => status,
        Err(Failed) => cut(status),
    }
}
