//! What is remembered: keys with their homes, those that were asked for last.
ghost use Rattle.std.specs.Prelude.{◌≡◌, ◌⊎◌, ℕ, List, IfSome};
ghost use Rattle.sd_ring.specs.Homes.{Remembers};

use lru::LruCache;
use sd_key::Key;

/// The home of a key, where it is remembered. The key is then the one that was asked for last.
pub(crate) fn recall(homes: &mut LruCache<Key, u8>, key: &Key) -> Option<u8>
    ensures home { IfSome result (Remembers homes.old key.now) }
    ensures homes { (other : List ℕ) (home : ℕ) → Remembers homes.new other home → Remembers homes.old other home }
{
    homes.get(key).copied()
}

/// Remembers the home of a key, where the cache is full in place of the key that wasn't asked for longest. Where there is
/// no memory for it, nothing changes.
pub(crate) fn remember(homes: &mut LruCache<Key, u8>, key: &Key, home: u8)
    ensures { (other : List ℕ) (at : ℕ) → Remembers homes.new other at → Remembers homes.old other at ⊎ ((other ≡ key.now) × (at ≡ home)) }
{
    // a home that isn't remembered is found again
    let _ = homes.put(copy_of(key), home);
}

/// The same key, for which no memory is taken.
fn copy_of(key: &Key) -> Key
    ensures { result ≡ key.now }
{
    key.clone().unwrap()
}
