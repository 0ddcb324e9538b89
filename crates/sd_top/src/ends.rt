//! How a run is answered: that of a replay, and that of loops, of receivers and others.
ghost use Rattle.std.specs.Prelude.{◌≡◌, ◌+◌, ◌<◌, ◌^◌, length, map, if◌then◌else◌};
ghost use Rattle.std.specs.List.{list_any};
ghost use Rattle.sd_model_serve.specs.Receiving.{most_turns};
ghost use Rattle.sd_model_call.specs.Call.{Done, Worn, cut_answer, ending};
ghost use Rattle.sd_model_call.specs.Server.{by_receivers as first_failed, reached_limit};
ghost use Rattle.sd_replay.specs.Ends.{end_of as replay_end};
ghost use Rattle.sd_serve.specs.Serving.{end_of};
ghost use Rattle.sd_opening.specs.Answers.{answer_of};

use sd_opening::{Part, Status};
use sd_outside::Ended;
use sd_replay::ReplayEnd;

/// How many turns a loop takes at most.
const MOST_TURNS: u64 = 1 << 62;

/// What the program answers where a replay ends so.
pub(crate) fn status_of(end: ReplayEnd) -> Status
    ensures { answer_of result ≡ ending (replay_end end) }
{
    match end {
        ReplayEnd::Ok(_) => Status::Ok,
        ReplayEnd::Script(fault) => Status::Script(fault),
        ReplayEnd::ReadFault => Status::ReadFault { part: Part::Script },
        ReplayEnd::WriteFault => Status::WriteFault,
        ReplayEnd::Worn { turns } => Status::Worn { turns },
    }
}

/// The status by the receiver of least number that failed, of receivers of which the first has this number; where none failed,
/// the other status.
pub(crate) fn by_receivers(first: u16, received: &[Ended], other: Status) -> Status
    requires { first + length received.now < 2 ^ 16 }
    ensures { answer_of result ≡ first_failed first (map end_of received.now) (answer_of other) }
{
    match received {
        [] => other,
        [Ended::Failed, ..] => Status::ReadFault {
            part: Part::Packets(first),
        },
        [_, rest @ ..] => by_receivers(first + 1, rest, other),
    }
}

/// Whether a loop ended since it took the most turns.
pub(crate) fn took_most_turns(ended: &Ended) -> bool
    ensures { result ≡ reached_limit (end_of ended.now) }
{
    matches!(ended, Ended::Worn { .. })
}

/// Whether a receiver ended so.
pub(crate) fn any_reached_limit(received: &[Ended]) -> bool
    ensures { result ≡ list_any (λ ended. reached_limit (end_of ended)) received.now }
{
    received.iter().any(took_most_turns)
}

/// How a run is answered by whether a loop of it took the most turns.
pub(crate) fn by_turns(reached_limit: bool) -> Status
    ensures { answer_of result ≡ (if reached_limit then Worn most_turns else Done) }
{
    if reached_limit {
        Status::Worn { turns: MOST_TURNS }
    } else {
        Status::Ok
    }
}

/// The status of a run whose totals couldn't be written.
pub(crate) fn cut(whole: Status) -> Status
    ensures { answer_of result ≡ cut_answer (answer_of whole) }
{
    match whole {
        Status::Ok => Status::WriteFault,
        other => other,
    }
}
