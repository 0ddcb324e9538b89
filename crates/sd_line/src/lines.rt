ghost use Rattle.std.specs.Prelude.{◌≡◌, ℕ, List, [], ◌∷◌, IsNone, IfSome};
ghost use Rattle.sd_model_text.specs.Lines.{pieces};
ghost use Rattle.sd_line.specs.Piece.{Answers, Stays, filled};

use crate::named::name_of;
use crate::parts::next_part;
use crate::piece::Bad;
use crate::sample::Sample;
use crate::values::Values;
use std::marker::Model;

/// The pieces of a datagram that are left, in order. A line without a colon is one piece. Another line has one for each of its
/// values, which stand between the colons behind its name.
#[derive(Debug, Drop)]
pub struct Lines<'a> {
    values: Values<'a>,
    rest: &'a [u8],
}

impl<'a> Model for Lines<'a> {
    ghost use Rattle.std.specs.Prelude.{ℕ, List, ◌++◌};
    ghost use Rattle.sd_model_text.specs.Lines.{pieces};

    ghost Value = { List (List ℕ) };

    ghost view = { λ l. l.values ++ pieces l.rest.now };
}

impl<'a> Lines<'a> {
    /// The pieces of a datagram.
    pub fn new(datagram: &'a [u8]) -> Lines<'a>
        ensures { result ≡ pieces datagram.now }
    {
        Lines {
            values: Values::none(),
            rest: datagram,
        }
    }

    /// The next piece: its sample, or why it has none. None at the end.
    pub fn next(&mut self) -> Option<Result<Sample, Bad>>
        ensures end { IsNone result → (self.old ≡ []) × (self.new ≡ []) }
        ensures next { IfSome result (λ answer. (piece : List ℕ) × (self.old ≡ piece ∷ self.new) × Answers piece answer) }
    {
        let mut sample = Sample::blank();
        match self.next_into(&mut sample)? {
            Ok(()) => Some(Ok(sample)),
            Err(bad) => Some(Err(bad)),
        }
    }

    /// The next piece: its sample, in the place of the one that is lent, or why it has none. None at the end. The lent one stays
    /// where there is no other. No more bytes are copied and cleared than keys and members have.
    pub fn next_into(&mut self, sample: &mut Sample) -> Option<Result<(), Bad>>
        ensures end { IsNone result → (self.old ≡ []) × (self.new ≡ []) }
        ensures next { IfSome result (λ answer. (piece : List ℕ) × (self.old ≡ piece ∷ self.new) × Answers piece (filled sample.new answer)) }
        ensures stays { Stays result sample.old sample.new }
    {
        if self.values.is_empty() {
            let Some(line) = next_part(self.rest) else {
                self.rest = &[];
                return None;
            };
            self.rest = line.rest;
            let Some(named) = name_of(line.part) else {
                return Some(Err(Bad::NoValue));
            };
            self.values.begin(&named);
        }
        self.values.next_into(sample)
    }
}
