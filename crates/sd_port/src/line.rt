//! How a line is executed.
ghost use Rattle.std.specs.Prelude.{◌≡◌, ℕ, ◌<◌, [], ◌∷◌, ◌++◌, if◌then◌else◌};
ghost use Rattle.sd_model_live.specs.Port.{PortExchange, health_said, leaves, looks_of_command, port_talk};
ghost use Rattle.sd_live.specs.Live.{IsPassOf, looks_of, publishes, seen};
ghost use Rattle.sd_proxy_desk.specs.Shared.{IsSeatOf, events_of, number_of_seat};
ghost use Rattle.sd_talk.specs.Answers.{Answers};
ghost use Rattle.sd_talk.specs.declared.answerer.LineAnswer.TheVariants.{Cut};
ghost use Rattle.sd_port.specs.Commands.{answer_view};
ghost use Rattle.sd_port.specs.Doing.{HasExecuted, IsOwnOf, LooksFor};

use crate::command::PortCommand;
use crate::replies::{ReplyBasis, write_port_reply};
use crate::shared::PortShared;
use log::Log;
use sd_admin::HealthWord;
use sd_event::health_set;
use sd_live::{UpCell, UpPass};
use sd_outside::Sink;
use sd_proxy_desk::{ProxyDesk, ProxyPass, ProxySeat};
use sd_talk::LineAnswer;
use std::sync::Wait;

/// Whether a command asks for the end of the session.
fn asks_for_end(command: Option<PortCommand>) -> bool
    ensures { result ≡ leaves (answer_view command) }
{
    matches!(command, Some(PortCommand::Quit))
}

/// Says at the desk how the health is, where a command says so, and tells the log.
fn say_health<R: Wait + Log>(
    rt: &R,
    desk: &ProxyDesk,
    seat: &mut ProxySeat,
    command: Option<PortCommand>,
)
    requires { IsSeatOf desk.now seat.old }
    ensures seat { IsSeatOf desk.now seat.new × (number_of_seat seat.new ≡ number_of_seat seat.old) }
    ensures did { events_of seat.new ≡ events_of seat.old ++ health_said (answer_view command) }
{
    let up = match command {
        Some(PortCommand::Health(HealthWord::Up)) => true,
        Some(PortCommand::Health(HealthWord::Down)) => false,
        _ => return,
    };
    desk.set_health(rt, up, seat);
    health_set(rt, up);
}

/// Whether a command asks for the nodes.
fn asks_for_nodes(command: Option<PortCommand>) -> bool
    ensures { (up : ℕ) → looks_of_command (answer_view command) up ≡ if result then up ∷ [] else [] }
{
    matches!(command, Some(PortCommand::Nodes))
}

/// The set of the nodes that are up, by one look, where a command asks for it, and else none.
fn look<R: Wait>(rt: &R, cell: &UpCell, pass: &mut UpPass, command: Option<PortCommand>) -> u64
    requires { IsPassOf cell.now pass.old }
    ensures pass { IsPassOf cell.now pass.new × (publishes pass.new ≡ publishes pass.old) }
    ensures looked { LooksFor (seen pass.old) (seen pass.new) (looks_of pass.old) (looks_of pass.new) (looks_of_command (answer_view command) result) }
{
    if asks_for_nodes(command) {
        cell.look(rt, pass)
    } else {
        0
    }
}

/// Executes a line, and replies.
pub(crate) fn answer_line<O: Sink, R: Wait + Log>(
    rt: &R,
    shared: &PortShared<'_>,
    own: &mut ProxyPass,
    line: &[u8],
    sink: &mut O,
) -> LineAnswer
    requires { IsOwnOf shared.now.hub.now own.old }
    ensures own { IsOwnOf shared.now.hub.now own.new }
    ensures answered { (e : PortExchange) × Answers (port_talk shared.now.settings.now) e line.now result (O.seen sink.old) (O.seen sink.new) × HasExecuted e own.old own.new }
    ensures place { (O.seen sink.new).opened_at ≡ (O.seen sink.old).opened_at }
    ensures cause { result ≡ Cut → 0 < (O.seen sink.new).faults }
{
    let command = PortCommand::read(line);
    if asks_for_end(command) {
        return LineAnswer::Quit;
    }
    let hub = shared.hub;
    let facts = hub.desk.facts(rt, &mut own.seat);
    say_health(rt, hub.desk, &mut own.seat, command);
    let basis = ReplyBasis {
        settings: shared.settings,
        facts: &facts,
        up: look(rt, hub.cell, &mut own.pass, command),
    };
    match write_port_reply(&basis, command, sink) {
        Ok(()) => LineAnswer::Whole,
        Err(_) => LineAnswer::Cut,
    }
}
