//! Names that came lately, with their homes: a name that comes again and again is neither cleaned nor looked up.
ghost use Rattle.std.specs.Prelude.{◌≡◌, ◌⊎◌, ℕ, ◌<◌, ◌≤◌, List, length, Some, IfOk, IfSome};
ghost use Rattle.sd_ring.specs.Recent.{Knows, name_in};

use std::alloc::{AllocError, Global};
use std::marker::Model;

/// How many slots a table has: a power of two.
const SLOTS: usize = 4096;

/// How many bytes a name has at most that takes a slot, which is then of 64 bytes.
const LONGEST: usize = 61;

/// What the mixing of words multiplies by: 2^64 divided by the golden ratio.
const FACTOR: u64 = 0x9e3779b97f4a7c15;

/// A table of slots, each for one name: a name has its slot by its hash, and takes it from the name that had it before.
#[derive(Debug, Drop)]
pub(crate) struct Recent {
    slots: Vec<Slot>,
}

impl Model for Recent {
    ghost use Rattle.std.specs.Prelude.{◌≡◌, List, length};
    ghost use Rattle.sd_ring.specs.declared.recent.Slot.{Slot as ModelSlot};

    ghost Value = { List ModelSlot };

    ghost view = { λ r. r.slots.items };

    ghost invariant = { λ r. length r.slots.items ≡ 4096 };
}

/// The home of a name, or none where no name has the slot; and the name, whose bytes stand first.
#[derive(Clone, Copy, Debug)]
pub(crate) struct Slot {
    home: Option<u8>,
    len: u8,
    bytes: [u8; LONGEST],
}

impl Recent {
    /// A table that knows no name. The error is want of memory.
    pub(crate) fn open(alloc: Global) -> Result<Recent, AllocError>
        ensures { IfOk result (λ recent. (name : List ℕ) (home : ℕ) → Knows recent name home → ⊥) }
    {
        let free = Slot {
            home: None,
            len: 0,
            bytes: [0; LONGEST],
        };
        Ok(Recent {
            slots: vec![in alloc; free; SLOTS]?,
        })
    }

    /// The home of a name, where the name has its slot.
    pub(crate) fn home(&self, name: &[u8]) -> Option<u8>
        ensures { IfSome result (Knows self.now name.now) }
    {
        if name.len() > LONGEST {
            return None;
        }
        let slot = &self.slots[slot_of(name)];
        if usize::from(slot.len) == name.len() && slot.bytes.starts_with(name) {
            slot.home
        } else {
            None
        }
    }

    /// Gives a name its slot, with its home, unless the name is too long.
    pub(crate) fn keep(&mut self, name: &[u8], home: u8)
        ensures { (other : List ℕ) (at : ℕ) → Knows self.new other at → Knows self.old other at ⊎ ((other ≡ name.now) × (at ≡ home)) }
    {
        if name.len() <= LONGEST {
            self.slots[slot_of(name)] = taken(name, home);
        }
    }
}

/// A slot that a name has, with its home.
fn taken(name: &[u8], home: u8) -> Slot
    requires { length name.now ≤ 61 }
    ensures name { name_in result ≡ name.now }
    ensures home { result.home ≡ Some home }
{
    let mut bytes = [0; LONGEST];
    bytes[..name.len()].copy_from_slice(name);
    Slot {
        home: Some(home),
        len: name.len() as u8,
        bytes,
    }
}

/// The slot of a name: a hash of its bytes, eight at a time, of which the high bits are taken.
fn slot_of(name: &[u8]) -> usize
    ensures { result < 4096 }
{
    let (words, _) = name.as_chunks::<8>();
    let ends = mixed(name.len() as u64, last_word(name));
    let hash = words
        .iter()
        .fold(ends, |hash, word| mixed(hash, u64::from_le_bytes(*word)));
    (hash >> 52) as usize
}

/// The last eight bytes of a name as a word, or one made of all its bytes, where there are fewer.
fn last_word(name: &[u8]) -> u64 {
    match name.last_chunk::<8>() {
        Some(last) => u64::from_le_bytes(*last),
        None => name
            .iter()
            .fold(0, |word, byte| mixed(word, u64::from(*byte))),
    }
}

/// A hash with one word more.
fn mixed(hash: u64, word: u64) -> u64 {
    let product = (hash ^ word).wrapping_mul(FACTOR);
    product ^ product >> 32
}
