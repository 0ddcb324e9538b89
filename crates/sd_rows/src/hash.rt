ghost use Rattle.std.specs.Prelude.{◌≡◌};
ghost use Rattle.sd_rows.specs.Hash.{mixed, hash_of};

use sd_key::{Key, Kind};

/// The finisher of MurmurHash3 for 64 bits, `fmix64` (Appleby, <https://github.com/aappleby/smhasher>): each bit of the number moves
/// about half of the bits.
fn mix(number: u64) -> u64
    ensures { result ≡ mixed number }
{
    let once = (number ^ (number >> 33)).wrapping_mul(0xff51_afd7_ed55_8ccd);
    let twice = (once ^ (once >> 33)).wrapping_mul(0xc4ce_b9fe_1a85_ec53);
    twice ^ (twice >> 33)
}

/// The hash of a kind and key, of 32 bits, under a seed. Who doesn't know the seed doesn't know whose hashes are near each other.
pub(crate) fn hash_of(seed: u64, kind: Kind, key: &Key) -> u32
    ensures { result ≡ hash_of seed kind key.now }
{
    (mix((key.fnv1a() ^ seed).wrapping_add(kind as u64)) >> 32) as u32
}
