//! What lines come to.
ghost use Rattle.std.specs.Prelude.{◌≡◌, ◌<◌};
ghost use Rattle.sd_model_serve.specs.Sessions.{FitsLine, Talk};
ghost use Rattle.sd_talk.specs.Answers.{Answers};
ghost use Rattle.sd_talk.specs.declared.answerer.LineAnswer.TheVariants.{Cut};

use log::Log;
use sd_outside::Sink;
use std::sync::Wait;

/// What a line came to.
#[derive(Clone, Copy, Debug, PartialEq, Eq)]
pub enum LineAnswer {
    /// It was executed, and replied to whole.
    Whole,
    /// It asks for the end of the session.
    Quit,
    /// Its reply was cut, since the output failed.
    Cut,
}

/// What answers the lines of sessions, over what is shared.
pub trait Answerer<S> {
    /// What is known of a line that was executed.
    ghost Exchange: { Type 0 };

    /// What its sessions are about.
    ghost talk: { S → Talk Exchange };

    /// It may answer a line.
    ghost can_answer: { S → Self → Type 0 };

    /// By what it was and what it is, it has executed a line so.
    ghost has_answered: { S → Exchange → Self → Self → Type 0 };

    /// Executes a line, which comes without its newline, and replies to it. Its reply is cut only where the output failed.
    fn answer<O: Sink, R: Wait + Log>(
        &mut self,
        rt: &R,
        shared: &S,
        line: &[u8],
        sink: &mut O,
    ) -> LineAnswer
        requires ready { can_answer shared.now self.old }
        requires line { FitsLine line.now }
        ensures ready { can_answer shared.now self.new }
        ensures answered { (e : Exchange) × Answers (talk shared.now) e line.now result (O.seen sink.old) (O.seen sink.new) × has_answered shared.now e self.old self.new }
        ensures place { (O.seen sink.new).opened_at ≡ (O.seen sink.old).opened_at }
        ensures cause { result ≡ Cut → 0 < (O.seen sink.new).faults };
}
