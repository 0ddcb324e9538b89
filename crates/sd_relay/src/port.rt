//! The port of a proxy, where it has one.
ghost use Rattle.std.specs.Prelude.{◌≡◌, true};
ghost use Rattle.sd_model_live.specs.Port.{has_port};
ghost use Rattle.sd_live.specs.Live.{IsPassOf};
ghost use Rattle.sd_proxy_desk.specs.Shared.{IsSeatOf, number_of_seat};
ghost use Rattle.sd_talk.specs.Room.{IsLineRoom};

use crate::live::Live;
use log::Log;
use sd_outside::{Door, Gate};
use sd_port::{PortShared, keep_port};
use sd_proxy::ProxyPass;
use sd_talk::LineRoom;
use sd_workers::Worker;
use std::sync::Wait;

/// What the keeper of a port works with: its pass of the set of nodes and its seat at the desk, and room for a line.
#[derive(Drop)]
pub(crate) struct PortRoom {
    pub own: ProxyPass,
    pub line: LineRoom,
}

impl PortRoom {
    ghost use Rattle.sd_relay.specs.Objects.{IsDoorBefore};
    ghost use Rattle.sd_relay.specs.Port.{PortDone};

    // Keeps the port of these settings.
    fn keep<E: Door, R: Wait + Log>(&mut self, rt: &R, shared: &PortShared<'_>, door: &mut E)
        requires pass { IsPassOf shared.now.hub.now.cell.now self.old.own.pass }
        requires seat { IsSeatOf shared.now.hub.now.desk.now self.old.own.seat }
        requires line { IsLineRoom self.old.line }
        requires door { IsDoorBefore (E.seen door.old) }
        requires port { has_port shared.now.settings.now ≡ true }
        ensures pass { IsPassOf shared.now.hub.now.cell.now self.new.own.pass }
        ensures seat { IsSeatOf shared.now.hub.now.desk.now self.new.own.seat × (number_of_seat self.new.own.seat ≡ number_of_seat self.old.own.seat) }
        ensures done { PortDone shared.now.settings.now self.old.own self.new.own (E.seen door.old) (E.seen door.new) }
    {
        keep_port(rt, shared, &mut self.own, &mut self.line, door);
    }
}

/// The work of the keeper of a port over what is lent to it.
#[derive(Drop)]
pub(crate) struct PortPost<'r, 'd, E> {
    pub room: &'r mut PortRoom,
    pub door: &'d mut E,
}

/// It keeps the port where the settings have one, and does nothing where they have none.
impl<'a, E: Door, G: Gate> Worker<Live<'a, G>> for PortPost<'_, '_, E> {
    ghost use Rattle.sd_relay.specs.Port.{CanKeep, HasKept};

    ghost can_run = { λ live post. CanKeep E.seen live.hub.cell.now live.hub.desk.now post };

    ghost has_run = { λ live old new. HasKept E.seen live.hub.cell.now live.hub.desk.now live.settings.now old new };

    fn run<R: Wait + Log>(&mut self, rt: &R, live: &Live<'a, G>) {
        if live.settings.proxy_mgmt_port() == 0 {
            return;
        }
        let shared = PortShared {
            hub: &live.hub,
            settings: live.settings,
        };
        self.room.keep(rt, &shared, self.door);
    }
}
