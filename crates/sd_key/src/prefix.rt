ghost use Rattle.std.specs.Prelude.{◌≡◌, take};
ghost use Rattle.std.specs.List.{prefix_len};
ghost use Rattle.sd_model_text.specs.Names.{fnv1a, is_name_byte as is_name};

use crate::cleaning::is_name_byte;
use crate::shard::{OFFSET, next_hash};

/// The bytes that a key may have and that a text begins with: how many those are, and their hash FNV-1a.
#[derive(Clone, Copy, Debug, PartialEq, Eq)]
pub struct Prefix {
    pub len: usize,
    pub hash: u64,
}

/// What a text begins with of the bytes that a key may have. Each of them is looked at once, for the hash too.
// A call of its own keeps the loop small, which goes over most bytes of a datagram.
#[inline(never)]
pub fn name_prefix(text: &[u8]) -> Prefix
    ensures len { result.len ≡ prefix_len is_name text.now }
    ensures hash { result.hash ≡ fnv1a (take result.len text.now) }
{
    let mut hash = OFFSET;
    for (i, byte) in text.iter().enumerate() {
        if !is_name_byte(*byte) {
            return Prefix { len: i, hash };
        }
        hash = next_hash(hash, *byte);
    }
    Prefix {
        len: text.len(),
        hash,
    }
}
