//! Sessions at their two ends.
ghost use Rattle.std.specs.Prelude.{◌≡◌};
ghost use Rattle.sd_model_serve.specs.Receiving.{administrator};
ghost use Rattle.sd_shared_desk.specs.Counts.{HasCounted, nothing};
ghost use Rattle.sd_pool.specs.Pool.{IsSeatOf, limits_of, own_at, shards_of, who_is};
ghost use Rattle.sd_shared_desk.specs.Shared.{IsSeatOf as IsDeskSeatOf, number_of_seat, part_of};
ghost use Rattle.sd_talk.specs.Room.{IsLineRoom};
ghost use Rattle.sd_session.specs.Answering.{AnswersWith, CanAnswer};
ghost use Rattle.sd_session.specs.Sessions.{HoldsSession};
ghost use Rattle.sd_session.specs.Space.{IsSpaceFor};

use crate::answerer::AdminAnswerer;
use crate::shared::AdminShared;
use crate::space::AdminSpace;
use log::Log;
use sd_config::Settings;
use sd_outside::{Clock, Sink, Source};
use sd_pool::Seat;
use sd_shared::Shared;
use sd_shared_desk::DeskSeat;
use sd_talk::{LineRoom, SessionEnd};
use std::sync::Wait;

/// Holds a session by its two ends, by an answerer.
fn hold_by<A: Source, O: Sink, C: Clock, G, R: Wait + Log>(
    rt: &R,
    shared: &AdminShared<'_, '_, G, C>,
    answerer: &mut AdminAnswerer<'_>,
    room: &mut LineRoom,
    source: &mut A,
    sink: &mut O,
) -> SessionEnd
    requires ready { CanAnswer shared.now.workers.now.pool.now shared.now.workers.now.desk.now answerer.old }
    requires room { IsLineRoom room.old }
    ensures ready { CanAnswer shared.now.workers.now.pool.now shared.now.workers.now.desk.now answerer.new }
    ensures works { AnswersWith answerer.old answerer.new }
    ensures room { IsLineRoom room.new }
    ensures number { number_of_seat answerer.new.own.now ≡ number_of_seat answerer.old.own.now }
    ensures counted { HasCounted nothing (part_of answerer.old.own.now) (part_of answerer.new.own.now) }
    ensures held { HoldsSession (shards_of shared.now.workers.now.pool.now) shared.now.settings.now (C.may_say shared.now.workers.now.clock.now) result (own_at answerer.old.seat.now) (own_at answerer.new.seat.now) (part_of answerer.old.own.now) (part_of answerer.new.own.now) (A.seen source.old) (A.seen source.new) (O.seen sink.old) (O.seen sink.new) }
{
    sd_talk::session(rt, shared, answerer, room, source, sink)
}

/// Holds a session by its two ends: its lines are read, executed by all shards and replied to, one after another, until one
/// asks for the end or is too long, or an end has nothing left or failed.
pub fn session<A: Source, O: Sink, C: Clock, G, R: Wait + Log>(
    rt: &R,
    shared: &Shared<'_, G, C>,
    own: &mut DeskSeat,
    seat: &mut Seat,
    settings: &Settings,
    space: &mut AdminSpace,
    source: &mut A,
    sink: &mut O,
) -> SessionEnd
    requires seat { IsSeatOf shared.now.pool.now seat.old × (who_is seat.old ≡ administrator) }
    requires own { IsDeskSeatOf shared.now.desk.now own.old }
    requires space { IsSpaceFor (limits_of shared.now.pool.now) (shards_of shared.now.pool.now) space.old }
    ensures seat { IsSeatOf shared.now.pool.now seat.new × (who_is seat.new ≡ administrator) }
    ensures own { IsDeskSeatOf shared.now.desk.now own.new × (number_of_seat own.new ≡ number_of_seat own.old) }
    ensures space { IsSpaceFor (limits_of shared.now.pool.now) (shards_of shared.now.pool.now) space.new }
    ensures counted { HasCounted nothing (part_of own.old) (part_of own.new) }
    ensures held { HoldsSession (shards_of shared.now.pool.now) settings.now (C.may_say shared.now.clock.now) result (own_at seat.old) (own_at seat.new) (part_of own.old) (part_of own.new) (A.seen source.old) (A.seen source.new) (O.seen sink.old) (O.seen sink.new) }
{
    let on = AdminShared {
        workers: shared,
        settings,
    };
    let mut answerer = AdminAnswerer {
        own,
        seat,
        replies: &mut space.replies,
    };
    hold_by(rt, &on, &mut answerer, &mut space.line, source, sink)
}
