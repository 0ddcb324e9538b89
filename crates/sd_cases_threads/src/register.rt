//! A value with a history: a sum, and a log of who put something in.
ghost use Rattle.std.specs.Prelude.{◌≡◌, false, map, refl, [], ◌∷◌, ◌++◌};

use sd_turn::{Change, Stepped};

/// A sum modulo 2^64, with the numbers of the seats that put something in, in order. It has missed
/// some of these once there is no memory for more.
#[derive(Drop)]
pub struct Register {
    pub seats: u16,
    pub sum: u64,
    pub log: Vec<u16>,
    pub missed: bool,
}

/// Adds a number. The sum as it was before goes to the end of a list that is lent, where there is memory for it.
#[derive(Drop)]
pub struct Put<'a> {
    pub more: u64,
    pub found: &'a mut Vec<u64>,
}

/// An entry of the history. No value of it is made.
pub struct Event {
    pub who: u64,
    pub added: u64,
    pub found: u64,
}

impl Register {
    // The log goes on with this number, where there is memory for it.
    fn note(&mut self, number: u16)
        ensures same { (self.new.sum ≡ self.old.sum) × (self.new.seats ≡ self.old.seats) }
        ensures log { self.new.missed ≡ false → (self.old.missed ≡ false) × (self.new.log.items ≡ self.old.log.items ++ number ∷ []) }
    {
        if self.log.push(number).is_err() {
            self.missed = true;
        }
    }
}

impl Stepped for Register {
    type Noted = Event;

    type Fixed = u64;

    ghost use Rattle.sd_cases_threads.specs.Puts.{IsLegal, sum_after};
    ghost use Rattle.sd_cases_threads.specs.declared.register.Event.{Event};

    ghost fixed = { λ r. r.seats };

    ghost seats = { λ seats. seats };

    ghost legal = { λ seats log. IsLegal 0 log };

    ghost stands = { λ r log. (r.sum ≡ sum_after 0 log) × IsLegal 0 log × (r.missed ≡ false → r.log.items ≡ map (λ (e : Event). e.who) log) };

    ghost who = { λ e. e.who };

    ghost stands_legal = { λ v log stands. stands.1 };
}

impl Change<Register> for Put<'_> {
    /// The sum as it was before.
    type Answer = u64;

    ghost use Rattle.sd_cases_threads.specs.Puts.{event};

    ghost allows = { λ put seats. Unit {0} };

    ghost entries = { λ put then was seats number. event number put.more was ∷ [] };

    ghost promised = { λ put then was seats. then.found.ghost_name ≡ put.found.ghost_name };

    fn apply(&mut self, value: &mut Register, number: u16) -> u64 {
        let sum = value.sum;
        value.sum = sum.wrapping_add(self.more);
        value.note(number);
        // No memory for an answer shows in what is printed.
        let _ = self.found.push(sum);
        sum
    }

    ghost entries_name = { λ put then was seats number. (refl, tt) };
}
