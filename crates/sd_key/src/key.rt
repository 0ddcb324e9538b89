ghost use Rattle.std.specs.Prelude.{◌≡◌, ◌↔◌, ℕ, ◌≤◌, List, [], length, Some, IsSome, IfSome, IsTrue, true, nat_eq, refl, ⊤};
ghost use Rattle.std.proofs.Common.{ap, sym};
ghost use Rattle.std.specs.Ordering.{nat_cmp};
ghost use Rattle.std.specs.Cmp.{partial_equiv_from_equiv};
ghost use Rattle.std.specs.Cmp.Lexicographic.{pointwise, same_text, slice_cmp, nat_list_eq_equiv, nat_list_cmp_total, texts_ties, texts_po};
ghost use Rattle.std.specs.Hash as fed;
ghost use Rattle.std.specs.declared.cmp.Ordering.TheVariants.{Equal};
ghost use Rattle.sd_model_text.specs.Names.{fnv1a};

use crate::shard::fnv1a;
use arrayvec::ArrayVec;
use std::alloc::AllocError;
use std::cmp::Ordering;
use std::hash::{Hash, Hasher};
use std::marker::Model;

/// A name of a metric: at most 255 bytes. Their hash is kept with them, since each sample needs it for its shard and for its row.
#[derive(Debug, Drop)]
pub struct Key {
    bytes: ArrayVec<u8, 255>,
    hash: u64,
}

impl Model for Key {
    ghost use Rattle.std.specs.Prelude.{ℕ, List};
    ghost use Rattle.sd_model_text.specs.Names.{fnv1a};

    ghost Value = { List ℕ };

    ghost use Rattle.sd_key.specs.KeyInside.{IsKey};

    ghost view = { λ k. k.bytes.items };

    ghost invariant = { IsKey };

    ghost inverse = { λ xs. record { bytes = record { items = xs }; hash = fnv1a xs } };
}

// All bytes at once: the clone of its `ArrayVec` would push them one by one.
impl Clone for Key {
    ghost is_clone = { λ key copy. copy ≡ key };

    ghost is_infallible = { λ key. ⊤ };

    fn clone(&self) -> Result<Key, AllocError> {
        let mut bytes = ArrayVec::new();
        bytes.try_extend_from_slice(self.as_slice()).unwrap();
        Ok(Key {
            bytes,
            hash: self.hash,
        })
    }
}

// Keys compare as their bytes do; their hash tells nothing besides.
impl PartialEq for Key {
    ghost eq = { pointwise nat_eq };

    ghost laws = { partial_equiv_from_equiv nat_list_eq_equiv };

    fn eq(&self, other: &Key) -> bool {
        self.bytes == other.bytes
    }
}

impl Eq for Key {
    ghost laws = { nat_list_eq_equiv };
}

impl PartialOrd for Key {
    ghost partial_cmp = { λ a b. Some (slice_cmp nat_cmp a b) };

    ghost laws = { texts_po };

    fn partial_cmp(&self, other: &Key) -> Option<Ordering> {
        Some(self.cmp(other))
    }
}

impl Ord for Key {
    ghost cmp = { slice_cmp nat_cmp };

    ghost total = { nat_list_cmp_total };

    ghost matches_partial_cmp = { λ a b. refl };

    ghost matches_eq = { texts_ties };

    fn cmp(&self, other: &Key) -> Ordering {
        self.bytes.cmp(&other.bytes)
    }
}

impl Hash for Key {
    ghost hash_input = { λ k. fed.u64 (fnv1a k) };

    ghost respects_eq = { λ a b same. ap (λ k. fed.u64 (fnv1a k)) (same_text a b (sym same)) };

    fn hash<H: Hasher>(&self, state: &mut H) {
        self.hash.hash(state);
    }
}

impl Key {
    /// The key of bytes that are in their place already.
    pub(crate) fn from_bytes(bytes: ArrayVec<u8, 255>) -> Key
        ensures { result ≡ bytes.items }
    {
        let hash = fnv1a(bytes.as_slice());
        Key { bytes, hash }
    }

    /// The key with these bytes, or none where they are too many.
    pub fn of(bytes: &[u8]) -> Option<Key>
        ensures fits { IsSome result ↔ (length bytes.now ≤ 255) }
        ensures bytes { IfSome result (λ key. key ≡ bytes.now) }
    {
        let mut key = ArrayVec::new();
        match key.try_extend_from_slice(bytes) {
            Ok(()) => Some(Key::from_bytes(key)),
            Err(_) => None,
        }
    }

    /// Takes these bytes, whose hash is known, in the place of its own. It copies and clears no more bytes than there are.
    pub fn copy_hashed(&mut self, bytes: &[u8], hash: u64)
        requires short { length bytes.now ≤ 255 }
        requires hash { hash ≡ fnv1a bytes.now }
        ensures { self.new ≡ bytes.now }
    {
        self.bytes.clear();
        self.bytes.try_extend_from_slice(bytes).unwrap();
        self.hash = hash;
    }

    /// Takes the bytes of another key in the place of its own.
    pub fn clone_from(&mut self, source: &Key)
        ensures { self.new ≡ source.now }
    {
        self.bytes.clear();
        self.bytes.try_extend_from_slice(source.as_slice()).unwrap();
        self.hash = source.hash;
    }

    /// The hash FNV-1a of its bytes, of 64 bits. It was made with the key.
    pub fn fnv1a(&self) -> u64
        ensures { result ≡ fnv1a self.now }
    {
        self.hash
    }

    /// The bytes.
    pub fn as_slice(&self) -> &[u8]
        ensures bytes { result.now ≡ self.now }
        ensures short { length self.now ≤ 255 }
    {
        self.bytes.as_slice()
    }

    /// How many bytes it has.
    pub fn len(&self) -> usize
        ensures len { result ≡ length self.now }
        ensures short { result ≤ 255 }
    {
        self.bytes.len()
    }

    /// Whether it has no byte.
    pub fn is_empty(&self) -> bool
        ensures { IsTrue result ↔ (self.now ≡ []) }
    {
        self.bytes.is_empty()
    }
}

/// Keys compare as their lists of bytes do, and only equal keys compare as equal.
pub fn keys_order()
    ensures order { (a b : List ℕ) → ⟦<Key as Ord>⟧.cmp a b ≡ slice_cmp nat_cmp a b }
    ensures partial { (a b : List ℕ) → ⟦<Key as PartialOrd>⟧.partial_cmp a b ≡ Some (slice_cmp nat_cmp a b) }
    ensures equal { (a b : List ℕ) → (⟦<Key as Ord>⟧.cmp a b ≡ Equal) ↔ (a ≡ b) }
    ensures same { (a b : List ℕ) → (⟦<Key as PartialEq>⟧.eq a b ≡ true) ↔ (a ≡ b) }
{}
