//! The table of a value behind a turn, its steps, and how a caller waits.
ghost use Rattle.std.specs.Prelude.{◌≡◌, ◌+◌, ◌-◌, ◌<◌, false, [], length, map, Some, IfOk, All};
ghost use mathlib.Core.Option.{none};
ghost use Rattle.atomic_table.specs.Table.{step, Allows};
ghost use Rattle.sd_turn.specs.Views.{giver, newcomer, first_account, both, IsPlain};
ghost use Rattle.sd_turn.specs.Rule.{Opens, Closes, Kept, Taken};

use crate::behind::{Behind, Cut, Glue, Rule, Take};
use crate::plain_seat::PlainSeat;
use crate::view::{About, View};
use atomic_table::{Play, Refused, Seat, Table};
use std::alloc::{AllocError, Global};
use std::hint::spin_loop;
use std::snapshot::Snapshot;
use std::sync::Wait;
use std::sync::atomic::AtomicU64;
use std::sync::atomic::Ordering::SeqCst;

// How often a caller tries before it sleeps.
const TRIES: u32 = 64;

/// The table of a value behind a turn, with those who wait for the turn.
#[derive(Drop)]
pub struct TurnTable<S: Drop, E, F, B: Behind<S, E, F>> {
    pub table: Table<S, View<E, F>, About<S>, Rule<B>, Global>,
    // How many threads may be asleep. It only saves wake-ups, and no fact rests on it.
    asleep: AtomicU64,
    ghost sized: { (0 < table.shared.table_id.words) × (table.shared.table_id.slots ≡ 1) },
    ghost seated: { 0 < table.shared.key.seats },
}

impl<S: Drop, E, F, B: Behind<S, E, F>> TurnTable<S, E, F, B> {
    ghost use Rattle.sd_turn.specs.TurnTable.{opened_with, seats_of};

    /// A table with these words, and its first seat, which may give away every number but its own,
    /// the last.
    pub fn open(
        alloc: Global,
        words: &[u64],
        value: S,
        seats: u16,
    ) -> Result<(TurnTable<S, E, F, B>, Seat<S, View<E, F>>), AllocError>
        requires some { 0 < seats }
        requires opens { Opens B.protocol seats value words.now }
        ensures table { IfOk result (λ r. (opened_with r.0 ≡ value) × (seats_of r.0 ≡ seats) × (r.0.table.shared.table_id.words ≡ length words.now)) }
        ensures seat { IfOk result (λ r. (r.1.table_id ≡ r.0.table.shared.table_id) × (r.1.me ≡ (giver (B.protocol.fixed value) (seats - 1) 0, []))) }
    {
        let about = About {
            value: Snapshot::of(&value),
            seats: u64::from(seats),
        };
        let mut slots = Vec::new(alloc);
        slots.push(value)?;
        match Table::new(alloc, words, slots, &about) {
            Ok((table, seat)) => Ok((
                TurnTable {
                    table,
                    asleep: AtomicU64::new(0),
                },
                seat,
            )),
            Err(Refused { slots: _ }) => Err(AllocError),
        }
    }

    /// The first seat gives away its next number, with a seat of that number.
    pub fn give_away(
        &self,
        first: &mut Seat<S, View<E, F>>,
        last: u16,
        number: u16,
    ) -> Seat<S, View<E, F>>
        requires seat { first.old.table_id ≡ self.now.table.shared.table_id }
        requires spare { (number < last) × (first.old.me ≡ (giver (B.protocol.fixed (opened_with self.now)) last number, [])) }
        ensures seat { (first.new.table_id ≡ first.old.table_id) × (first.new.me ≡ (giver (B.protocol.fixed (opened_with self.now)) last (number + 1), [])) }
        ensures new { (result.table_id ≡ self.now.table.shared.table_id) × (result.me ≡ (newcomer (B.protocol.fixed (opened_with self.now)) number, [])) }
    {
        self.table.shared.split_seat::<Cut>(first)
    }

    /// Waits until the turn is free, and takes it with the value.
    pub fn take<R: Wait>(&self, rt: &R, seat: &mut Seat<S, View<E, F>>, number: u16)
        requires seat { (seat.old.table_id ≡ self.now.table.shared.table_id) × (seat.old.me.1 ≡ []) × IsPlain number seat.old.me.0 × (seat.old.me.0.fixed ≡ Some (B.protocol.fixed (opened_with self.now))) }
        ensures seat { seat.new.table_id ≡ seat.old.table_id }
        ensures taken { Taken B.protocol seat.old.me.0 seat.new.me }
    {
        let mine = u64::from(number) + 1;
        let mut tries = 0u32;
        for _ in rt.forever() {
            let found = self
                .table
                .shared
                .compare_exchange::<Take<B>>(seat, 0, 0, mine);
            if found == 0 {
                return;
            }
            if tries < TRIES {
                tries += 1;
                spin_loop();
            } else {
                self.sleep(rt, found);
            }
        }
        unreachable!()
    }

    // Sleeps while the turn word is this one.
    fn sleep<R: Wait>(&self, rt: &R, found: u64) {
        self.asleep.fetch_add(1, SeqCst);
        self.table.shared.park(rt, 0, (found % (1 << 32)) as u32);
        self.asleep.fetch_sub(1, SeqCst);
    }

    /// Gives the turn and the value back, and wakes one who sleeps.
    pub fn give<P: Play<S, View<E, F>>>(&self, seat: &mut Seat<S, View<E, F>>)
        requires seat { seat.old.table_id ≡ self.now.table.shared.table_id }
        requires given { Allows (Kept B.protocol (B.protocol.fixed (opened_with self.now)) (seats_of self.now)) self.now.table.shared.table_id.slots seat.old.id seat.old.me 0 (λ _. 0) (λ _. P.then (step self.now.table.shared.table_id.slots 0 0 0 none) seat.old.me 0) }
        ensures seat { seat.new.table_id ≡ seat.old.table_id }
        ensures given { P.then (step self.now.table.shared.table_id.slots 0 0 0 none) seat.old.me 0 seat.new.me }
    {
        self.table.shared.store::<P>(seat, 0, 0);
        if self.asleep.load(SeqCst) > 0 {
            self.table.shared.wake_one(0);
        }
    }

    /// One seat that has taken in all the others.
    pub fn gather<T: PlainSeat<S, E, F>>(&self, mut seats: Vec<T>) -> Seat<S, View<E, F>>
        requires some { 0 < length seats.items }
        requires seats { All (λ s. (T.inner s).table_id ≡ self.now.table.shared.table_id) seats.items }
        ensures { (result.table_id ≡ self.now.table.shared.table_id) × (result.me.0.turn ≡ false) × (result.me.0.accounts ≡ map (λ s. first_account (T.inner s).me.0.accounts) seats.items) }
    {
        let Some(last) = seats.pop() else {
            unreachable!()
        };
        let mut keeper = last.into_inner();
        while let Some(next) = seats.pop() {
            self.join(&mut keeper, next.into_inner());
        }
        keeper
    }

    /// One seat takes in another.
    pub fn join(&self, keeper: &mut Seat<S, View<E, F>>, other: Seat<S, View<E, F>>)
        requires keeper { (keeper.old.table_id ≡ self.now.table.shared.table_id) × (keeper.old.me.0.turn ≡ false) }
        requires other { (other.table_id ≡ self.now.table.shared.table_id) × (other.me.1 ≡ []) × (other.me.0.turn ≡ false) }
        ensures { (keeper.new.table_id ≡ keeper.old.table_id) × (keeper.new.me ≡ (both keeper.old.me.0 other.me.0, keeper.old.me.1)) }
    {
        self.table.shared.join_seat::<Glue>(keeper, other);
    }

    /// The value, where one seat has taken in all others.
    pub fn close(self, keeper: Seat<S, View<E, F>>) -> S
        requires keeper { (keeper.table_id ≡ self.table.shared.table_id) × (keeper.me.0.turn ≡ false) }
        requires all { length keeper.me.0.accounts ≡ seats_of self }
        ensures { Closes B.protocol (B.protocol.fixed (opened_with self)) (seats_of self) keeper.me.0.accounts result }
    {
        let TurnTable { table, asleep: _ } = self;
        let mut closed = table.close_with(keeper);
        let value = closed.take(0);
        closed.free();
        value
    }
}
