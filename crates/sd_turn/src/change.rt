//! What changes a value behind a turn.
ghost use Rattle.std.specs.Prelude.{◌≡◌, ℕ, ◌<◌, List, ◌++◌};
ghost use Rattle.sd_turn.specs.Lists.{Each};

use crate::stepped::Stepped;

/// One change of a value behind a turn, with what it reads and writes, which is lent to it or goes along. It waits for nobody.
pub trait Change<V: Stepped> {
    /// What the caller is answered.
    type Answer;

    // Whether it is allowed for a fixed part.
    ghost allows: { Self → V.Fixed → Type 0 };

    // The entries of a seat's number, from what the change was, what it is, and the answer: in order, several or none.
    ghost entries: { Self → Self → Self.Answer → V.Fixed → ℕ → List V.Noted };

    // What the change then is, and the answer, have to do with what it was.
    ghost promised: { Self → Self → Self.Answer → V.Fixed → Type 0 };

    /// Changes the value, for the seat with this number. The entries stand next to each other.
    fn apply(&mut self, value: &mut V, number: u16) -> Self::Answer
        requires seat { number < V.seats (V.fixed value.old) }
        requires allowed { allows self.old (V.fixed value.old) }
        ensures fixed { V.fixed value.new ≡ V.fixed value.old }
        ensures stands { (log : List V.Noted) → V.stands value.old log → V.stands value.new (log ++ entries self.old self.new result (V.fixed value.old) number) }
        ensures promised { promised self.old self.new result (V.fixed value.old) };

    ghost entries_name: { (old new : Self) (answer : Self.Answer) (f : V.Fixed) (number : ℕ) → Each (λ e. V.who e ≡ number) (entries old new answer f number) };
}
