//! What answers the lines of a port's sessions.
use crate::line::answer_line;
use crate::shared::PortShared;
use log::Log;
use sd_outside::Sink;
use sd_proxy_desk::ProxyPass;
use sd_talk::{Answerer, LineAnswer};
use std::sync::Wait;

/// Answers the lines of a port's sessions, with a thread's pass of the set of nodes and its seat at the desk.
#[derive(Drop)]
pub struct PortAnswerer<'p> {
    pub own: &'p mut ProxyPass,
}

impl Answerer<PortShared<'_>> for PortAnswerer<'_> {
    ghost use Rattle.sd_model_live.specs.Port.{PortExchange, port_talk};
    ghost use Rattle.sd_port.specs.Doing.{IsOwnOf};
    ghost use Rattle.sd_port.specs.Answering.{HasAnswered};

    ghost Exchange = { PortExchange };

    ghost talk = { λ shared. port_talk shared.settings.now };

    ghost can_answer = { λ shared answerer. IsOwnOf shared.hub.now answerer.own.now };

    ghost has_answered = { λ shared e old new. HasAnswered e old new };

    fn answer<O: Sink, R: Wait + Log>(
        &mut self,
        rt: &R,
        shared: &PortShared<'_>,
        line: &[u8],
        sink: &mut O,
    ) -> LineAnswer {
        answer_line(rt, shared, self.own, line, sink)
    }
}
