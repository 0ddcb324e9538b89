//! A value behind a turn with a history.
ghost use Rattle.std.specs.Prelude.{◌≡◌, ◌<◌, [], ◌++◌, length, map, IfOk, All};
ghost use Rattle.atomic_table.specs.Table.{rest};
ghost use Rattle.sd_turn.specs.Lists.{span};
ghost use Rattle.sd_turn.specs.Views.{released};
ghost use Rattle.sd_turn.specs.Entries.{GoesOnBy, entries_by};
ghost use Rattle.sd_turn.specs.History.{noting, Holds};

use crate::change::Change;
use crate::history::{Chosen, Give, History};
use crate::stepped::Stepped;
use crate::turn_seat::TurnSeat;
use crate::turn_table::TurnTable;
use crate::view::View;
use atomic_table::Seat;
use std::alloc::{AllocError, Global};
use std::marker::Brand;
use std::snapshot::Snapshot;
use std::sync::Wait;

/// A value behind a turn, with one legal history that it stands for.
#[derive(Drop)]
pub struct Turn<V: Stepped> {
    turn: TurnTable<V, V::Noted, V::Fixed, History>,
}

impl<V: Stepped> Turn<V> {
    ghost use Rattle.sd_turn.specs.Turn.{opened_with, seats_of, number_of, account_of, seen, own, IsSeatOf, IsNewSeatOf, History as IsHistory};

    /// A turn over a value that stands for no entries, and its seats, which have the numbers from 0
    /// on, in order. Only this call takes memory.
    pub fn open(
        alloc: Global,
        value: V,
        seats: u16,
    ) -> Result<(Turn<V>, Vec<TurnSeat<V>>), AllocError>
        requires some { (0 < seats) × (seats ≡ V.seats (V.fixed value)) }
        requires empty { V.stands value [] }
        ensures turn { IfOk result (λ r. (opened_with r.0 ≡ value) × (seats_of r.0 ≡ seats)) }
        ensures numbers { IfOk result (λ r. map number_of r.1.items ≡ span 0 seats) }
        ensures seats { IfOk result (λ r. All (IsNewSeatOf r.0) r.1.items) }
    {
        let (table, mut first) = TurnTable::open(alloc, &[0], value, seats)?;
        let turn = Turn::new(table);
        let mut made = Vec::new(alloc);
        let last = seats - 1;
        for number in 0..last {
            let seat = turn.turn.give_away(&mut first, last, number);
            made.push(TurnSeat::new(number, seat))?;
        }
        made.push(TurnSeat::new(last, first))?;
        Ok((turn, made))
    }

    fn new(turn: TurnTable<V, V::Noted, V::Fixed, History>) -> Turn<V>
        ensures { result.turn ≡ turn }
    {
        Turn { turn }
    }

    /// Waits for the turn, calls `during`, makes the change, and gives the turn back. The entries that
    /// the change makes stand next to each other in the history.
    pub fn with_turn<Q: Change<V>, F: FnOnce(), R: Wait>(
        &self,
        rt: &R,
        seat: &mut TurnSeat<V>,
        change: &mut Q,
        during: F,
    ) -> Q::Answer
        requires seat { IsSeatOf self.now seat.old }
        requires allowed { Q.allows change.old (V.fixed (opened_with self.now)) }
        requires during { F.pre during }
        ensures seat { IsSeatOf self.now seat.new × (number_of seat.new ≡ number_of seat.old) }
        ensures seen { GoesOnBy (seen seat.old) (seen seat.new) (Q.entries change.old change.new result (V.fixed (opened_with self.now)) (number_of seat.old)) }
        ensures legal { V.legal (V.fixed (opened_with self.now)) (seen seat.new) }
        ensures own { own seat.new ≡ own seat.old ++ Q.entries change.old change.new result (V.fixed (opened_with self.now)) (number_of seat.old) }
        ensures all { own seat.new ≡ entries_by V.who (number_of seat.old) (seen seat.new) }
        ensures promised { Q.promised change.old change.new result (V.fixed (opened_with self.now)) }
        ensures during { F.post during tt }
    {
        let number = seat.number;
        self.turn.take(rt, &mut seat.seat, number);
        during();
        let before = Snapshot::of(&*change);
        let answer = self.change(&mut seat.seat, number, change);
        self.give::<Brand, Q>(&mut seat.seat, number, before, change, &answer);
        answer
    }

    // The change, by a seat that has the turn.
    fn change<Q: Change<V>>(
        &self,
        seat: &mut Seat<V, View<V::Noted, V::Fixed>>,
        number: u16,
        change: &mut Q,
    ) -> Q::Answer
        requires seat { (seat.old.table_id ≡ self.now.turn.table.shared.table_id) × (number < seats_of self.now) × (seats_of self.now ≡ V.seats (V.fixed (opened_with self.now))) }
        requires allowed { Q.allows change.old (V.fixed (opened_with self.now)) }
        requires held { Holds V.fixed V.stands (V.fixed (opened_with self.now)) number [] seat.old.me }
        ensures seat { (seat.new.table_id ≡ seat.old.table_id) × (seat.new.me.0 ≡ seat.old.me.0) }
        ensures held { Holds V.fixed V.stands (V.fixed (opened_with self.now)) number (Q.entries change.old change.new result (V.fixed (opened_with self.now)) number) seat.new.me }
        ensures promised { Q.promised change.old change.new result (V.fixed (opened_with self.now)) }
    {
        let value = seat.slot_mut(&self.turn.table.shared, 0);
        change.apply(value, number)
    }

    // The entries of the change are noted as the turn is given back.
    fn give<E: Chosen<V::Noted>, Q: Change<V>>(
        &self,
        seat: &mut Seat<V, View<V::Noted, V::Fixed>>,
        number: u16,
        before: Snapshot<Q>,
        change: &Q,
        answer: &Q::Answer,
    )
        requires chosen { E.chosen ≡ Q.entries before.value change.now answer.now (V.fixed (opened_with self.now)) number }
        requires seat { (seat.old.table_id ≡ self.now.turn.table.shared.table_id) × (number < seats_of self.now) }
        requires held { Holds V.fixed V.stands (V.fixed (opened_with self.now)) number (Q.entries before.value change.now answer.now (V.fixed (opened_with self.now)) number) seat.old.me }
        ensures { (seat.new.table_id ≡ seat.old.table_id) × (seat.new.me ≡ (released (noting seat.old.me.0 (Q.entries before.value change.now answer.now (V.fixed (opened_with self.now)) number)), rest seat.old.me.1)) }
    {
        let _ = (number, before, change, answer);
        self.turn.give::<Give<E>>(seat);
    }

    /// The value, from all its seats. It stands for one legal history, of which each seat has seen a
    /// beginning, and in which the entries of each seat are its own.
    pub fn close(self, seats: Vec<TurnSeat<V>>) -> V
        requires all { length seats.items ≡ seats_of self }
        requires seats { All (IsSeatOf self) seats.items }
        ensures fixed { V.fixed result ≡ V.fixed (opened_with self) }
        ensures history { IsHistory self seats.items result }
    {
        let keeper = self.turn.gather(seats);
        let Turn { turn } = self;
        turn.close(keeper)
    }
}
