ghost use Rattle.std.specs.Prelude.{◌≡◌, ◌↔◌, ℕ, List, [], ◌∷◌, ◌++◌, map, IsNone, IfSome, IsTrue, None, Ok, true, false};
ghost use Rattle.sd_model_text.specs.Lists.{split};
ghost use Rattle.sd_model_text.specs.Names.{clean as clean_name, fnv1a};
ghost use Rattle.sd_law_text.specs.Bytes.{has_byte};
ghost use Rattle.sd_line.specs.Piece.{Answers, Stays, filled};

use crate::cut::first_part;
use crate::named::Named;
use crate::piece::{Bad, read_value};
use crate::sample::Sample;
use sd_key::{Key, KeyFault, clean};
use std::marker::Model;

/// The pieces of a line that are left: its name, and the values behind it. A name is cleaned once, whatever values it has.
#[derive(Debug, Drop)]
pub(crate) struct Values<'a> {
    name: &'a [u8],
    /// The hash of the name, where that is a key as it stands.
    hash: u64,
    /// What cleaning made of the name. Nothing is here where the name is a key as it stands.
    cleaned: Option<Result<Key, KeyFault>>,
    left: Option<&'a [u8]>,
}

impl<'a> Model for Values<'a> {
    ghost use Rattle.std.specs.Prelude.{ℕ, List};
    ghost use Rattle.sd_line.specs.Values.{values_view, IsValues};

    ghost Value = { List (List ℕ) };

    ghost view = { values_view };

    ghost invariant = { IsValues };
}

/// Leaves nothing. It writes only where something is, since it clears all bytes of a key.
fn forget(cleaned: &mut Option<Result<Key, KeyFault>>)
    ensures { cleaned.new ≡ None }
{
    if cleaned.is_some() {
        *cleaned = None;
    }
}

impl<'a> Values<'a> {
    /// No pieces.
    pub(crate) fn none() -> Values<'a>
        ensures { result ≡ [] }
    {
        Values {
            name: &[],
            hash: 0,
            cleaned: Some(Err(KeyFault::Empty)),
            left: None,
        }
    }

    /// Whether no piece is left.
    pub(crate) fn is_empty(&self) -> bool
        ensures { IsTrue result ↔ (self.now ≡ []) }
    {
        self.left.is_none()
    }

    /// Begins with the values of this name, in the place of those that are left.
    pub(crate) fn begin(&mut self, named: &Named<'a>)
        requires key { named.now.is_key ≡ true → clean_name named.now.name.now ≡ Ok named.now.name.now }
        requires hash { named.now.is_key ≡ true → named.now.hash ≡ fnv1a named.now.name.now }
        requires first { has_byte 58 named.now.name.now ≡ false }
        ensures { self.new ≡ map (λ part. named.now.name.now ++ 58 ∷ part) (split 58 named.now.rest.now) }
    {
        self.name = named.name;
        self.hash = named.hash;
        if named.is_key {
            forget(&mut self.cleaned);
        } else {
            self.cleaned = Some(clean(named.name));
        }
        self.left = Some(named.rest);
    }

    /// The next piece: its sample, in the place of the one that is lent, or why it has none. None at the end. The lent one stays
    /// where there is no other.
    pub(crate) fn next_into(&mut self, sample: &mut Sample) -> Option<Result<(), Bad>>
        ensures end { IsNone result → (self.old ≡ []) × (self.new ≡ []) }
        ensures next { IfSome result (λ answer. (piece : List ℕ) × (self.old ≡ piece ∷ self.new) × Answers piece (filled sample.new answer)) }
        ensures stays { Stays result sample.old sample.new }
    {
        let part = first_part(self.left?, b':');
        self.left = part.behind;
        match read_value(self.name, self.hash, &self.cleaned, part.text) {
            Ok(reading) => {
                reading.fill(sample);
                Some(Ok(()))
            }
            Err(bad) => Some(Err(bad)),
        }
    }
}
