ghost use Rattle.std.specs.Prelude.{◌≡◌, ◌↔◌, ℕ, ◌≤◌, List, [], length, IsSome, IfSome, IsTrue, true};
ghost use Rattle.sd_model_text.specs.Names.{matches};
ghost use Rattle.sd_key.specs.Pattern.{only_key};

use crate::Key;
use arrayvec::ArrayVec;
use std::marker::Model;

/// The name by which metrics are deleted: at most 1,023 bytes.
#[derive(Clone, Debug, PartialEq, Eq, Drop)]
pub struct Pattern {
    bytes: ArrayVec<u8, 1023>,
}

impl Model for Pattern {
    ghost Value = { List ℕ };

    ghost view = { λ p. p.bytes.items };

    ghost invariant = { λ p. length p.bytes.items ≤ 1023 };

    ghost inverse = { λ xs. record { bytes = record { items = xs } } };
}

impl Pattern {
    /// The pattern with these bytes, or none where they are too many.
    pub fn of(bytes: &[u8]) -> Option<Pattern>
        ensures fits { IsSome result ↔ (length bytes.now ≤ 1023) }
        ensures bytes { IfSome result (λ pattern. pattern ≡ bytes.now) }
    {
        let mut pattern = ArrayVec::new();
        match pattern.try_extend_from_slice(bytes) {
            Ok(()) => Some(Pattern { bytes: pattern }),
            Err(_) => None,
        }
    }

    /// The bytes.
    pub fn as_slice(&self) -> &[u8]
        ensures bytes { result.now ≡ self.now }
        ensures short { length self.now ≤ 1023 }
    {
        self.bytes.as_slice()
    }

    /// How many bytes it has.
    pub fn len(&self) -> usize
        ensures len { result ≡ length self.now }
        ensures short { result ≤ 1023 }
    {
        self.bytes.len()
    }

    /// Whether it has no byte.
    pub fn is_empty(&self) -> bool
        ensures { IsTrue result ↔ (self.now ≡ []) }
    {
        self.bytes.is_empty()
    }

    /// The key that it names: where there is one, it is the only key that it matches. None where it ends in `.*`, or is longer than
    /// any key.
    pub fn only_key(&self) -> Option<Key>
        ensures key { result ≡ only_key self.now }
        ensures only { IfSome result (λ only. (key : List ℕ) → matches self.now key ≡ true → key ≡ only) }
    {
        let text = self.as_slice();
        if text.ends_with(b".*") {
            return None;
        }
        Key::of(text)
    }
}

/// Whether a pattern matches a key: one that ends in `.*` matches each key that begins with its text up to
/// and including that point, and any other matches the equal key alone.
pub fn matches(pattern: &Pattern, key: &Key) -> bool
    ensures { result ≡ matches pattern.now key.now }
{
    let text = pattern.as_slice();
    if text.ends_with(b".*") {
        key.as_slice().starts_with(&text[..text.len() - 1])
    } else {
        key.as_slice() == text
    }
}
