ghost use Rattle.std.specs.Prelude.{◌≡◌, ◌*◌, ◌%◌, ◌^◌, ◌<◌, bit_xor};
ghost use Rattle.sd_model_text.specs.Names.{fnv1a, shard};

use crate::Key;

/// The hash of no bytes.
pub(crate) const OFFSET: u64 = 0xcbf29ce484222325;

/// What each byte multiplies the hash by.
const PRIME: u64 = 0x100000001b3;

/// The shard of a key, among `shards`.
pub fn shard_of(key: &Key, shards: u16) -> u16
    requires { 0 < shards }
    ensures shard { result ≡ shard key.now shards }
    ensures below { result < shards }
{
    (key.fnv1a() % u64::from(shards)) as u16
}

/// The hash of bytes with one byte more, by that of the bytes before it.
pub(crate) fn next_hash(hash: u64, byte: u8) -> u64
    ensures { result ≡ bit_xor hash byte * 0x100000001b3 % 2 ^ 64 }
{
    (hash ^ u64::from(byte)).wrapping_mul(PRIME)
}

/// The hash FNV-1a of 64 bits.
pub fn fnv1a(bytes: &[u8]) -> u64
    ensures { result ≡ fnv1a bytes.now }
{
    bytes
        .iter()
        .fold(OFFSET, |hash, byte| next_hash(hash, *byte))
}
