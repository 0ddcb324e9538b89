//! What stands behind the turn of a proxy's desk.
ghost use Rattle.std.specs.Prelude.{◌≡◌, []};
ghost use Rattle.sd_model_live.specs.Port.{first_facts};
ghost use Rattle.sd_proxy_desk.specs.Asks.{Does};
ghost use Rattle.sd_proxy_desk.specs.Behind.{Stands};
ghost use Rattle.sd_proxy_desk.specs.Views.{facts_view};

use crate::ask::{ProxyAsk, ProxyReply};
use crate::facts::ProxyFacts;
use crate::noted::{Noted, Setup};
use sd_turn::{Change, Stepped};
use std::marker::Model;

/// The facts behind a turn, and how many seats there are.
#[derive(Debug, Drop)]
pub struct ProxyValue {
    facts: ProxyFacts,
    seats: u16,
}

impl Model for ProxyValue {
    ghost use Rattle.sd_proxy_desk.specs.Behind.{Behind};

    ghost Value = { Behind };

    ghost use Rattle.sd_proxy_desk.specs.BehindInside.{behind_in};

    ghost view = { behind_in };
}

impl ProxyValue {
    // A desk at which nothing was done.
    pub(crate) fn new(seats: u16) -> ProxyValue
        ensures value { result ≡ record { facts = first_facts; seats = seats } }
        ensures stands { Stands result [] }
    {
        ProxyValue {
            facts: ProxyFacts::first(),
            seats,
        }
    }

    pub(crate) fn into_facts(self) -> ProxyFacts
        ensures { facts_view result ≡ self.facts }
    {
        let ProxyValue { facts, seats: _ } = self;
        facts
    }

    // Does what the call of the ask's name does.
    fn act(&mut self, ask: ProxyAsk) -> ProxyReply
        ensures seats { self.new.seats ≡ self.old.seats }
        ensures does { Does self.old.facts ask self.new.facts result }
    {
        match ask {
            ProxyAsk::Count { totals } => self.facts.add_totals(totals),
            ProxyAsk::Check { failed } => self.facts.add_check(failed),
            ProxyAsk::SetHealth { up } => self.facts.up = up,
            ProxyAsk::Facts => return ProxyReply::Reported(self.facts),
        }
        ProxyReply::Done
    }
}

impl Stepped for ProxyValue {
    type Noted = Noted;

    type Fixed = Setup;

    ghost use Rattle.sd_proxy_desk.specs.Behind.{IsLegal, Stands, setup_of};

    ghost fixed = { setup_of };

    ghost seats = { λ setup. setup.seats };

    ghost legal = { IsLegal };

    ghost stands = { Stands };

    ghost who = { λ n. n.number };

    ghost stands_legal = { λ v log stands. stands.legal };
}

impl Change<ProxyValue> for ProxyAsk {
    type Answer = ProxyReply;

    ghost use Rattle.std.specs.Prelude.{[], ◌∷◌, refl};
    ghost use Rattle.sd_proxy_desk.specs.Asks.{IsReplyTo, entry_of};

    ghost allows = { λ ask setup. Unit {0} };

    ghost entries = { λ ask then reply setup number. entry_of number ask reply ∷ [] };

    ghost promised = { λ ask then reply setup. IsReplyTo ask reply };

    fn apply(&mut self, value: &mut ProxyValue, number: u16) -> ProxyReply {
        let _ = number;
        value.act(*self)
    }

    ghost entries_name = { λ ask then reply setup number. (refl, tt) };
}
