ghost use Rattle.std.specs.Prelude.{◌≡◌, ◌≤◌, ◌⊎◌, length, IfErr, IfOk, IsOkUnless};

use crate::refusal::Refusal;
use crate::text::bytes_of;
use sd_key::{Key, Kind};
use std::alloc::Global;

/// The key that a word stands for.
///
/// # Errors
///
/// `Malformed` where the word has no form of bytes, or stands for more than a key holds, and `OutOfMemory`.
pub fn key_of(alloc: Global, word: &str) -> Result<Key, Refusal>
    ensures short { IfOk result (λ key. length key ≤ 255) }
    ensures cause { IfErr result (λ refusal. (refusal ≡ Refusal.Malformed) ⊎ (refusal ≡ Refusal.OutOfMemory)) }
{
    Key::of(&bytes_of(alloc, word)?).ok_or(Refusal::Malformed)
}

/// The kind that a word names.
///
/// # Errors
///
/// `Malformed` where it names none.
pub fn kind_of(word: &str) -> Result<Kind, Refusal>
    ensures cause { IsOkUnless result Refusal.Malformed }
{
    match word {
        "counter" => Ok(Kind::Counter),
        "timer" => Ok(Kind::Timer),
        "gauge" => Ok(Kind::Gauge),
        "set" => Ok(Kind::Set),
        _ => Err(Refusal::Malformed),
    }
}

/// The word that names a kind.
pub fn kind_word(kind: Kind) -> &'static str {
    match kind {
        Kind::Counter => "counter",
        Kind::Timer => "timer",
        Kind::Gauge => "gauge",
        Kind::Set => "set",
    }
}
