ghost use Rattle.std.specs.Prelude.{◌≡◌, ◌*◌, ◌<◌, ◌≤◌, ◌++◌};
ghost use Rattle.sd_model_record.specs.Admin.{command};
ghost use Rattle.sd_model_serve.specs.Receiving.{administrator};
ghost use Rattle.sd_shared_desk.specs.Counts.{HasCounted, nothing};
ghost use Rattle.sd_model_serve.specs.Sessions.{health_calls, Exchange, admin_talk, is_quit};
ghost use Rattle.sd_pool.specs.Pool.{IsSeatOf, limits_of, shards_of, who_is};
ghost use Rattle.sd_shared_desk.specs.Shared.{IsSeatOf as IsDeskSeatOf, number_of_seat, part_of};
ghost use Rattle.sd_talk.specs.Answers.{Answers};
ghost use Rattle.sd_talk.specs.declared.answerer.LineAnswer.TheVariants.{Cut};
ghost use Rattle.sd_session.specs.Doing.{HasExecuted};

use crate::execution::{AnswerBasis, execute};
use crate::shared::AdminShared;
use crate::space::ReplyRoom;
use crate::telling::tell_health;
use log::Log;
use sd_admin::{Command, HealthWord};
use sd_outside::{Clock, Sink};
use sd_pool::Seat;
use sd_shared_desk::{DeskSeat, SharedDesk};
use sd_talk::LineAnswer;
use std::sync::Wait;

/// Whether a line asks for the end of the session.
fn asks_for_end(line: &[u8]) -> bool
    ensures { result ≡ is_quit (command line.now) }
{
    matches!(Command::read(line), Ok(Command::Quit))
}

/// Sets the health, where a line says so.
fn set_health<R: Wait>(rt: &R, desk: &SharedDesk, own: &mut DeskSeat, line: &[u8])
    requires { IsDeskSeatOf desk.now own.old }
    ensures own { IsDeskSeatOf desk.now own.new × (number_of_seat own.new ≡ number_of_seat own.old) }
    ensures counted { HasCounted nothing (part_of own.old) (part_of own.new) }
    ensures called { (part_of own.new).own ≡ (part_of own.old).own ++ health_calls (command line.now) }
{
    match Command::read(line) {
        Ok(Command::Health(HealthWord::Up)) => desk.set_health(rt, true, own),
        Ok(Command::Health(HealthWord::Down)) => desk.set_health(rt, false, own),
        _ => {}
    }
}

/// Executes a line of a session, and replies.
pub(crate) fn answer_line<O: Sink, C: Clock, G, R: Wait + Log>(
    rt: &R,
    shared: &AdminShared<'_, '_, G, C>,
    own: &mut DeskSeat,
    seat: &mut Seat,
    replies: &mut ReplyRoom,
    line: &[u8],
    sink: &mut O,
) -> LineAnswer
    requires seat { IsSeatOf shared.now.workers.now.pool.now seat.old × (who_is seat.old ≡ administrator) }
    requires own { IsDeskSeatOf shared.now.workers.now.desk.now own.old }
    requires keys { shards_of shared.now.workers.now.pool.now * (limits_of shared.now.workers.now.pool.now).rows ≤ replies.old.keys.room }
    requires dump { shards_of shared.now.workers.now.pool.now * (limits_of shared.now.workers.now.pool.now).rows ≤ replies.old.dump.room }
    ensures seat { IsSeatOf shared.now.workers.now.pool.now seat.new × (who_is seat.new ≡ administrator) }
    ensures own { IsDeskSeatOf shared.now.workers.now.desk.now own.new }
    ensures keys { replies.new.keys.room ≡ replies.old.keys.room }
    ensures dump { replies.new.dump.room ≡ replies.old.dump.room }
    ensures answered { (e : Exchange) × Answers (admin_talk (shards_of shared.now.workers.now.pool.now) shared.now.settings.now (C.may_say shared.now.workers.now.clock.now)) e line.now result (O.seen sink.old) (O.seen sink.new) × HasExecuted (shards_of shared.now.workers.now.pool.now) e seat.old seat.new own.old own.new }
    ensures place { (O.seen sink.new).opened_at ≡ (O.seen sink.old).opened_at }
    ensures cause { result ≡ Cut → 0 < (O.seen sink.new).faults }
{
    if asks_for_end(line) {
        return LineAnswer::Quit;
    }
    let workers = shared.workers;
    let facts = workers.desk.facts(rt, own);
    set_health(rt, workers.desk, own, line);
    tell_health(rt, line);
    let basis = AnswerBasis {
        settings: shared.settings,
        facts: &facts,
        moment: workers.clock.now(),
    };
    match execute(rt, workers.pool, seat, replies, &basis, line, sink) {
        Ok(()) => LineAnswer::Whole,
        Err(_) => LineAnswer::Cut,
    }
}
