//! What answers the lines of admin sessions.
use crate::line::answer_line;
use crate::shared::AdminShared;
use crate::space::ReplyRoom;
use log::Log;
use sd_outside::{Clock, Sink};
use sd_pool::Seat;
use sd_shared_desk::DeskSeat;
use sd_talk::{Answerer, LineAnswer};
use std::sync::Wait;

/// Answers the lines of admin sessions, with a thread's seats at the desk and in the pool, and the room for replies.
#[derive(Drop)]
pub(crate) struct AdminAnswerer<'r> {
    pub own: &'r mut DeskSeat,
    pub seat: &'r mut Seat,
    pub replies: &'r mut ReplyRoom,
}

impl<G, C: Clock> Answerer<AdminShared<'_, '_, G, C>> for AdminAnswerer<'_> {
    ghost use Rattle.sd_model_serve.specs.Sessions.{Exchange, admin_talk};
    ghost use Rattle.sd_pool.specs.Pool.{shards_of};
    ghost use Rattle.sd_session.specs.Answering.{CanAnswer, HasAnswered};

    ghost Exchange = { Exchange };

    ghost talk = { λ shared. admin_talk (shards_of shared.workers.now.pool.now) shared.settings.now (C.may_say shared.workers.now.clock.now) };

    ghost can_answer = { λ shared answerer. CanAnswer shared.workers.now.pool.now shared.workers.now.desk.now answerer };

    ghost has_answered = { λ shared e old new. HasAnswered (shards_of shared.workers.now.pool.now) e old new };

    fn answer<O: Sink, R: Wait + Log>(
        &mut self,
        rt: &R,
        shared: &AdminShared<'_, '_, G, C>,
        line: &[u8],
        sink: &mut O,
    ) -> LineAnswer {
        answer_line(rt, shared, self.own, self.seat, self.replies, line, sink)
    }
}
