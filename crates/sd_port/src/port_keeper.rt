//! How a port is kept.
ghost use Rattle.std.specs.Prelude.{◌≡◌, ◌<◌, ◌^◌, false};
ghost use Rattle.sd_live.specs.Live.{IsPassOf, publishes};
ghost use Rattle.sd_proxy_desk.specs.Shared.{IsSeatOf, number_of_seat};
ghost use Rattle.sd_talk.specs.Room.{IsLineRoom};
ghost use Rattle.sd_talk.specs.Serving.{EndsServing};
ghost use Rattle.sd_port.specs.Doing.{IsOwnOf};
ghost use Rattle.sd_port.specs.PortKeeper.{KeepsPort};

use crate::answerer::PortAnswerer;
use crate::shared::PortShared;
use log::Log;
use sd_outside::{Door, DoorEnd};
use sd_proxy_desk::ProxyPass;
use sd_talk::{LineRoom, serve_talks};
use std::sync::Wait;

/// Serves the sessions of a door by an answerer.
fn keep_by<E: Door, R: Wait + Log>(
    rt: &R,
    shared: &PortShared<'_>,
    answerer: &mut PortAnswerer<'_>,
    room: &mut LineRoom,
    door: &mut E,
) -> DoorEnd
    requires own { IsOwnOf shared.now.hub.now answerer.old.own.now }
    requires room { IsLineRoom room.old }
    requires none_out { (E.seen door.old).is_out ≡ false }
    requires turns { (E.seen door.old).turns < 2 ^ 62 }
    ensures own { IsOwnOf shared.now.hub.now answerer.new.own.now }
    ensures works { answerer.new.own.ghost_name ≡ answerer.old.own.ghost_name }
    ensures room { IsLineRoom room.new }
    ensures kept { KeepsPort shared.now.settings.now answerer.old.own.now answerer.new.own.now (E.seen door.old) (E.seen door.new) }
    ensures ends { EndsServing result (E.seen door.old) (E.seen door.new) }
{
    serve_talks(rt, shared, answerer, room, door)
}

/// Serves the sessions of a proxy's port one after another, and gives each back, until the door has none left or took 2^62 turns. Where
/// it fails, it is asked again.
pub fn keep_port<E: Door, R: Wait + Log>(
    rt: &R,
    shared: &PortShared<'_>,
    own: &mut ProxyPass,
    room: &mut LineRoom,
    door: &mut E,
) -> DoorEnd
    requires seat { IsSeatOf shared.now.hub.now.desk.now own.old.seat }
    requires pass { IsPassOf shared.now.hub.now.cell.now own.old.pass }
    requires room { IsLineRoom room.old }
    requires none_out { (E.seen door.old).is_out ≡ false }
    requires turns { (E.seen door.old).turns < 2 ^ 62 }
    ensures seat { IsSeatOf shared.now.hub.now.desk.now own.new.seat × (number_of_seat own.new.seat ≡ number_of_seat own.old.seat) }
    ensures pass { IsPassOf shared.now.hub.now.cell.now own.new.pass × (publishes own.new.pass ≡ publishes own.old.pass) }
    ensures room { IsLineRoom room.new }
    ensures kept { KeepsPort shared.now.settings.now own.old own.new (E.seen door.old) (E.seen door.new) }
    ensures ends { EndsServing result (E.seen door.old) (E.seen door.new) }
{
    let mut answerer = PortAnswerer { own };
    keep_by(rt, shared, &mut answerer, room, door)
}
