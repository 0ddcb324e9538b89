ghost use Rattle.std.specs.Prelude.{◌≡◌, ◌<◌, ◌∷◌, ◌++◌, [], length, map, IfOk, All};
ghost use Rattle.sd_turn.specs.Lists.{span};
ghost use Rattle.sd_model_live.specs.Port.{CountsRead, CountsCheck, SaysHealth, HearsFacts};
ghost use Rattle.sd_proxy_desk.specs.Views.{facts_view, totals_view};

use crate::ask::{ProxyAsk, ProxyReply};
use crate::facts::ProxyFacts;
use crate::totals::ProxyTotals;
use crate::value::ProxyValue;
use sd_turn::{Turn, TurnSeat};
use std::alloc::{AllocError, Global};
use std::sync::Wait;

/// What one caller asks a proxy's desk with. It has what its caller did there, seen by contracts alone.
pub type ProxySeat = TurnSeat<ProxyValue>;

/// The desk of a proxy. Each call waits for its turn. All that was done there stands in one history, of which each caller's own is its
/// own, in order. Only `open` takes memory.
#[derive(Drop)]
pub struct ProxyDesk {
    turn: Turn<ProxyValue>,
}

impl ProxyDesk {
    ghost use Rattle.sd_proxy_desk.specs.Asks.{IsReplyTo, event_of};
    ghost use Rattle.sd_proxy_desk.specs.Shared.{History, IsNewSeatOf, IsSeatOf, events_of, number_of_seat, seats_of};

    /// A desk at which nothing was done, and its seats, which have the numbers from 0 on, in order.
    ///
    /// # Errors
    ///
    /// Where no memory is left for it.
    pub fn open(alloc: Global, seats: u16) -> Result<(ProxyDesk, Vec<ProxySeat>), AllocError>
        requires { 0 < seats }
        ensures count { IfOk result (λ r. seats_of r.0 ≡ seats) }
        ensures numbers { IfOk result (λ r. map number_of_seat r.1.items ≡ span 0 seats) }
        ensures seats { IfOk result (λ r. All (IsNewSeatOf r.0) r.1.items) }
    {
        let (turn, made) = Turn::open(alloc, ProxyValue::new(seats), seats)?;
        Ok((ProxyDesk { turn }, made))
    }

    // One call.
    fn ask<R: Wait>(&self, rt: &R, own: &mut ProxySeat, mut ask: ProxyAsk) -> ProxyReply
        requires { IsSeatOf self.now own.old }
        ensures seat { IsSeatOf self.now own.new × (number_of_seat own.new ≡ number_of_seat own.old) }
        ensures did { events_of own.new ≡ events_of own.old ++ event_of ask result ∷ [] }
        ensures replies { IsReplyTo ask result }
    {
        self.turn.with_turn(rt, own, &mut ask, || ())
    }

    /// Counts what a read came to: a datagram, or the lines that one read of a stream ended.
    pub fn count<R: Wait>(&self, rt: &R, totals: ProxyTotals, own: &mut ProxySeat)
        requires { IsSeatOf self.now own.old }
        ensures seat { IsSeatOf self.now own.new × (number_of_seat own.new ≡ number_of_seat own.old) }
        ensures did { events_of own.new ≡ events_of own.old ++ CountsRead (totals_view totals) ∷ [] }
    {
        match self.ask(rt, own, ProxyAsk::Count { totals }) {
            ProxyReply::Done => {}
            _ => unreachable!(),
        }
    }

    /// Counts a check, of which so many questions failed.
    pub fn count_check<R: Wait>(&self, rt: &R, failed: u64, own: &mut ProxySeat)
        requires { IsSeatOf self.now own.old }
        ensures seat { IsSeatOf self.now own.new × (number_of_seat own.new ≡ number_of_seat own.old) }
        ensures did { events_of own.new ≡ events_of own.old ++ CountsCheck failed ∷ [] }
    {
        match self.ask(rt, own, ProxyAsk::Check { failed }) {
            ProxyReply::Done => {}
            _ => unreachable!(),
        }
    }

    /// Says whether the proxy is well.
    pub fn set_health<R: Wait>(&self, rt: &R, up: bool, own: &mut ProxySeat)
        requires { IsSeatOf self.now own.old }
        ensures seat { IsSeatOf self.now own.new × (number_of_seat own.new ≡ number_of_seat own.old) }
        ensures did { events_of own.new ≡ events_of own.old ++ SaysHealth up ∷ [] }
    {
        match self.ask(rt, own, ProxyAsk::SetHealth { up }) {
            ProxyReply::Done => {}
            _ => unreachable!(),
        }
    }

    /// The facts as they stand.
    pub fn facts<R: Wait>(&self, rt: &R, own: &mut ProxySeat) -> ProxyFacts
        requires { IsSeatOf self.now own.old }
        ensures seat { IsSeatOf self.now own.new × (number_of_seat own.new ≡ number_of_seat own.old) }
        ensures did { events_of own.new ≡ events_of own.old ++ HearsFacts (facts_view result) ∷ [] }
    {
        match self.ask(rt, own, ProxyAsk::Facts) {
            ProxyReply::Reported(facts) => facts,
            _ => unreachable!(),
        }
    }

    /// The facts that are left, from all seats: those that the desk's one history leaves, in which what each caller did is its own.
    pub fn close(self, seats: Vec<ProxySeat>) -> ProxyFacts
        requires all { length seats.items ≡ seats_of self }
        requires seats { All (IsSeatOf self) seats.items }
        ensures { History self seats.items (facts_view result) }
    {
        self.turn.close(seats).into_facts()
    }
}
