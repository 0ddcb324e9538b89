//! What stands behind the turn of a shared desk.
ghost use Rattle.std.specs.Prelude.{◌≡◌, []};
ghost use Rattle.sd_shared_desk.specs.Asks.{Does};
ghost use Rattle.sd_shared_desk.specs.Behind.{Stands};

use crate::ask::{DeskAsk, DeskReply};
use crate::noted::{Noted, Setup};
use sd_desk::Desk;
use sd_turn::{Change, Stepped};
use std::marker::Model;

/// A desk behind a turn, and how many seats there are.
#[derive(Debug, Drop)]
pub struct DeskValue {
    desk: Desk,
    seats: u16,
}

impl Model for DeskValue {
    ghost use Rattle.sd_shared_desk.specs.Behind.{Behind};

    ghost Value = { Behind };

    ghost use Rattle.sd_shared_desk.specs.BehindInside.{behind_in};

    ghost view = { behind_in };
}

impl DeskValue {
    ghost use Rattle.sd_model_record.specs.Desk.{new_desk};

    // The desk of a server that starts at this Unix second.
    pub(crate) fn new(start: u64, seats: u16) -> DeskValue
        ensures value { result ≡ record { desk = new_desk start; seats = seats } }
        ensures stands { Stands result [] }
    {
        DeskValue {
            desk: Desk::new(start),
            seats,
        }
    }

    pub(crate) fn into_desk(self) -> Desk
        ensures { result ≡ self.desk }
    {
        let DeskValue { desk, seats: _ } = self;
        desk
    }

    // Does what the call of the ask's name does to a desk.
    fn act(&mut self, ask: DeskAsk) -> DeskReply
        ensures seats { self.new.seats ≡ self.old.seats }
        ensures does { Does self.old.desk ask self.new.desk result }
    {
        match ask {
            DeskAsk::Add { t, now } => {
                self.desk.add(t, now);
                DeskReply::Done
            }
            DeskAsk::Take => DeskReply::Took(self.desk.take()),
            DeskAsk::SetHealth { up } => {
                self.desk.set_health(up);
                DeskReply::Done
            }
            DeskAsk::Mark { m } => {
                self.desk.mark(m);
                DeskReply::Done
            }
            DeskAsk::AdminFault => {
                self.desk.admin_fault();
                DeskReply::Done
            }
            DeskAsk::RepeaterFaults { n } => {
                self.desk.repeater_faults(n);
                DeskReply::Done
            }
            DeskAsk::Facts => DeskReply::Reported(self.desk.facts()),
        }
    }
}

impl Stepped for DeskValue {
    type Noted = Noted;

    type Fixed = Setup;

    ghost use Rattle.sd_shared_desk.specs.Behind.{IsLegal, Stands, setup_of};

    ghost fixed = { setup_of };

    ghost seats = { λ setup. setup.seats };

    ghost legal = { IsLegal };

    ghost stands = { Stands };

    ghost who = { λ n. n.number };

    ghost stands_legal = { λ v log stands. stands.legal };
}

impl Change<DeskValue> for DeskAsk {
    type Answer = DeskReply;

    ghost use Rattle.std.specs.Prelude.{[], ◌∷◌, refl};
    ghost use Rattle.sd_shared_desk.specs.Asks.{IsReplyTo, entry_of};

    ghost allows = { λ ask setup. Unit {0} };

    ghost entries = { λ ask then reply setup number. entry_of number ask reply ∷ [] };

    ghost promised = { λ ask then reply setup. IsReplyTo ask reply };

    fn apply(&mut self, value: &mut DeskValue, number: u16) -> DeskReply {
        let _ = number;
        value.act(*self)
    }

    ghost entries_name = { λ ask then reply setup number. (refl, tt) };
}
