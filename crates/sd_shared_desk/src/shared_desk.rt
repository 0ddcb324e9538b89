ghost use Rattle.std.specs.Prelude.{◌≡◌, ◌<◌, ◌≤◌, List, [], ◌++◌, length, map, min, IfOk, IfSome, IfNone, All};
ghost use Rattle.std.specs.List.{AllByRecursion};
ghost use Rattle.sd_turn.specs.Lists.{span};
ghost use Rattle.sd_model_record.specs.Desk.{new_desk};
ghost use Rattle.sd_model_record.specs.DeskHistory.{DeskCall, Add, Take, SetHealth, Mark, AdminFault, RepeaterFaults, Look, Done, Took, Reported};
ghost use Rattle.sd_shared_desk.specs.Counts.{HasCalled, HasCounted, AreSeen, IsLook, nothing, of_tally, of_taken, of_marks, of_sessions, of_sends};
ghost use Rattle.sd_desk.specs.Facts.{facts_view};
ghost use Rattle.sd_desk.specs.Marks.{marks_of};
ghost use Rattle.sd_desk.specs.Tally.{tally_of};
ghost use Rattle.sd_model_shard.specs.Shard.{last_number};
ghost use Rattle.sd_desk.specs.Sums.{Count, number_of, RoundsMade};

use crate::ask::{DeskAsk, DeskReply};
use crate::value::DeskValue;
use sd_desk::{Desk, DeskFacts, RoundMarks, Tally};
use sd_turn::{Turn, TurnSeat};
use std::alloc::{AllocError, Global};
use std::sync::Wait;

/// What one caller asks a shared desk with. It has the calls that its caller made, and the desk's history as it has last seen it,
/// both seen by contracts alone.
pub type DeskSeat = TurnSeat<DeskValue>;

/// A desk that threads share. Each call waits for the desk's turn, and does to the desk what the call of that name does to a
/// `Desk`. All calls stand in one history, of which each caller's own are its own, in order. Only `open` takes memory.
#[derive(Drop)]
pub struct SharedDesk {
    turn: Turn<DeskValue>,
}

impl SharedDesk {
    ghost use Rattle.sd_shared_desk.specs.Asks.{IsReplyTo, call_of};
    ghost use Rattle.sd_shared_desk.specs.Shared.{Calls, History, IsConserved, IsNewSeatOf, IsSeatOf, all_added, number_of_seat, opened_with, part_of, seats_of, start_of};

    /// The desk of a server that starts at this Unix second, and its seats, which have the numbers from 0 on, in order.
    pub fn open(
        alloc: Global,
        start: u64,
        seats: u16,
    ) -> Result<(SharedDesk, Vec<DeskSeat>), AllocError>
        requires { 0 < seats }
        ensures desk { IfOk result (λ r. (opened_with r.0 ≡ record { desk = new_desk start; seats = seats }) × (seats_of r.0 ≡ seats)) }
        ensures numbers { IfOk result (λ r. map number_of_seat r.1.items ≡ span 0 seats) }
        ensures seats { IfOk result (λ r. All (IsNewSeatOf r.0) r.1.items) }
    {
        let (turn, made) = Turn::open(alloc, DeskValue::new(start, seats), seats)?;
        Ok((SharedDesk { turn }, made))
    }

    // One call.
    fn ask<R: Wait>(&self, rt: &R, own: &mut DeskSeat, mut ask: DeskAsk) -> DeskReply
        requires { IsSeatOf self.now own.old }
        ensures seat { IsSeatOf self.now own.new × (number_of_seat own.new ≡ number_of_seat own.old) }
        ensures calls { Calls self.now own.old own.new (call_of ask result) }
        ensures replies { IsReplyTo ask result }
    {
        self.turn.with_turn(rt, own, &mut ask, || ())
    }

    /// Adds what a datagram counts for, which came at this Unix second.
    pub fn add<R: Wait>(&self, rt: &R, t: Tally, now: u64, own: &mut DeskSeat)
        requires { IsSeatOf self.now own.old }
        ensures seat { IsSeatOf self.now own.new × (number_of_seat own.new ≡ number_of_seat own.old) }
        ensures calls { Calls self.now own.old own.new (record { event = Add (tally_of t) now; answer = Done }) }
        ensures counted { HasCounted (of_tally (tally_of t)) (part_of own.old) (part_of own.new) }
    {
        match self.ask(rt, own, DeskAsk::Add { t, now }) {
            DeskReply::Done => {}
            _ => unreachable!(),
        }
    }

    /// The tally since it was last taken, which begins anew.
    pub fn take<R: Wait>(&self, rt: &R, own: &mut DeskSeat) -> Tally
        requires { IsSeatOf self.now own.old }
        ensures seat { IsSeatOf self.now own.new × (number_of_seat own.new ≡ number_of_seat own.old) }
        ensures calls { Calls self.now own.old own.new (record { event = Take; answer = Took (tally_of result) }) }
        ensures counted { HasCounted (of_taken (tally_of result)) (part_of own.old) (part_of own.new) }
    {
        match self.ask(rt, own, DeskAsk::Take) {
            DeskReply::Took(t) => t,
            _ => unreachable!(),
        }
    }

    /// Says whether the server is well.
    pub fn set_health<R: Wait>(&self, rt: &R, up: bool, own: &mut DeskSeat)
        requires { IsSeatOf self.now own.old }
        ensures seat { IsSeatOf self.now own.new × (number_of_seat own.new ≡ number_of_seat own.old) }
        ensures calls { Calls self.now own.old own.new (record { event = SetHealth up; answer = Done }) }
        ensures counted { HasCounted nothing (part_of own.old) (part_of own.new) }
    {
        match self.ask(rt, own, DeskAsk::SetHealth { up }) {
            DeskReply::Done => {}
            _ => unreachable!(),
        }
    }

    /// Counts a flush, and a fault of each backend that its marks name.
    pub fn mark<R: Wait>(&self, rt: &R, m: RoundMarks, own: &mut DeskSeat)
        requires { IsSeatOf self.now own.old }
        ensures seat { IsSeatOf self.now own.new × (number_of_seat own.new ≡ number_of_seat own.old) }
        ensures calls { Calls self.now own.old own.new (record { event = Mark (marks_of m); answer = Done }) }
        ensures counted { HasCounted (of_marks (marks_of m)) (part_of own.old) (part_of own.new) }
    {
        match self.ask(rt, own, DeskAsk::Mark { m }) {
            DeskReply::Done => {}
            _ => unreachable!(),
        }
    }

    /// Counts an admin session that failed.
    pub fn admin_fault<R: Wait>(&self, rt: &R, own: &mut DeskSeat)
        requires { IsSeatOf self.now own.old }
        ensures seat { IsSeatOf self.now own.new × (number_of_seat own.new ≡ number_of_seat own.old) }
        ensures calls { Calls self.now own.old own.new (record { event = AdminFault; answer = Done }) }
        ensures counted { HasCounted (of_sessions 1) (part_of own.old) (part_of own.new) }
    {
        match self.ask(rt, own, DeskAsk::AdminFault) {
            DeskReply::Done => {}
            _ => unreachable!(),
        }
    }

    /// Counts sends of the repeater that failed.
    pub fn repeater_faults<R: Wait>(&self, rt: &R, n: u32, own: &mut DeskSeat)
        requires { IsSeatOf self.now own.old }
        ensures seat { IsSeatOf self.now own.new × (number_of_seat own.new ≡ number_of_seat own.old) }
        ensures calls { Calls self.now own.old own.new (record { event = RepeaterFaults n; answer = Done }) }
        ensures counted { HasCounted (of_sends n) (part_of own.old) (part_of own.new) }
    {
        match self.ask(rt, own, DeskAsk::RepeaterFaults { n }) {
            DeskReply::Done => {}
            _ => unreachable!(),
        }
    }

    /// The facts as they stand. The totals, the flushes and the faults are those that the seat has then seen.
    pub fn facts<R: Wait>(&self, rt: &R, own: &mut DeskSeat) -> DeskFacts
        requires { IsSeatOf self.now own.old }
        ensures seat { IsSeatOf self.now own.new × (number_of_seat own.new ≡ number_of_seat own.old) }
        ensures start { result.start ≡ start_of self.now }
        ensures seen { AreSeen (facts_view result) (part_of own.new).seen }
        ensures calls { Calls self.now own.old own.new (record { event = Look; answer = Reported (facts_view result) }) }
        ensures counted { HasCounted nothing (part_of own.old) (part_of own.new) }
    {
        match self.ask(rt, own, DeskAsk::Facts) {
            DeskReply::Reported(facts) => facts,
            _ => unreachable!(),
        }
    }

    /// The flushes that were counted, once there are as many as a caller waits for; 0 waits for none. They are those that the
    /// seat has then seen.
    pub fn rounds_reached<R: Wait>(&self, rt: &R, enough: u64, own: &mut DeskSeat) -> Option<u64>
        requires { IsSeatOf self.now own.old }
        ensures seat { IsSeatOf self.now own.new × (number_of_seat own.new ≡ number_of_seat own.old) }
        ensures reached { IfSome result (λ rounds. (0 < enough) × (enough ≤ rounds) × (rounds ≡ (part_of own.new).seen RoundsMade)) }
        ensures called { HasCalled (AllByRecursion IsLook) (part_of own.old) (part_of own.new) }
        ensures short { IfNone result (0 < enough → (part_of own.new).seen RoundsMade < enough) }
        ensures counted { HasCounted nothing (part_of own.old) (part_of own.new) }
    {
        if enough == 0 {
            return None;
        }
        let rounds = self.facts(rt, own).rounds;
        (rounds >= enough).then_some(rounds)
    }

    /// The desk, from all its seats: what is left of its one history, of which each seat has seen a beginning, and in which the
    /// calls of each seat are its own. Each of the desk's numbers is the sum of what the seats added, up to 2^63, and at least what
    /// each seat has seen of it. What was added to the totals is what was taken and what the desk still has.
    pub fn close(self, seats: Vec<DeskSeat>) -> Desk
        requires all { length seats.items ≡ seats_of self }
        requires seats { All (IsSeatOf self) seats.items }
        ensures history { History self seats.items result }
        ensures start { result.facts.start ≡ start_of self }
        ensures sums { (count : Count) → number_of result count ≡ min (all_added count seats.items) last_number }
        ensures seen { All (λ s. (count : Count) → (part_of s).seen count ≤ number_of result count) seats.items }
        ensures conserved { IsConserved seats.items result }
    {
        self.turn.close(seats).into_desk()
    }
}
