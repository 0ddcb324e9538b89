ghost use Rattle.std.specs.Prelude.{◌≡◌, ◌<◌, ◌≤◌, ◌⊎◌, IfErr, IfOk, IsOkUnless};

use crate::refusal::Refusal;
use std::alloc::Global;
use std::str::FromStr;

/// The bytes that a word of a case stands for: its own, but for `""`, which is no byte, the escapes `\n`, `\r`,
/// `\t`, `\s` and `\xNN`, and `{TEXT*COUNT}`, which is the text so many times.
///
/// # Errors
///
/// `Malformed` where an escape or a repetition is none of these, and `OutOfMemory`.
pub fn bytes_of(alloc: Global, word: &str) -> Result<Vec<u8>, Refusal>
    ensures cause { IfErr result (λ refusal. (refusal ≡ Refusal.Malformed) ⊎ (refusal ≡ Refusal.OutOfMemory)) }
{
    let mut bytes = Vec::new(alloc);
    if word == "\"\"" {
        return Ok(bytes);
    }
    for (place, part) in word.split('{').enumerate() {
        if place == 0 {
            push_plain(&mut bytes, part)?;
        } else {
            push_repeated(&mut bytes, part)?;
        }
    }
    Ok(bytes)
}

/// Appends what stands behind an opening brace: a repetition, and the plain text behind it.
fn push_repeated(bytes: &mut Vec<u8>, part: &str) -> Result<(), Refusal>
    ensures cause { IfErr result (λ refusal. (refusal ≡ Refusal.Malformed) ⊎ (refusal ≡ Refusal.OutOfMemory)) }
{
    let (repetition, plain) = part.split_once('}').ok_or(Refusal::Malformed)?;
    let (text, count) = repetition.split_once('*').ok_or(Refusal::Malformed)?;
    let count = number::<u32>(count)?;
    for _ in 0..count {
        push_plain(bytes, text)?;
    }
    push_plain(bytes, plain)
}

/// Appends a text with escapes.
fn push_plain(bytes: &mut Vec<u8>, text: &str) -> Result<(), Refusal>
    ensures cause { IfErr result (λ refusal. (refusal ≡ Refusal.Malformed) ⊎ (refusal ≡ Refusal.OutOfMemory)) }
{
    for (place, part) in text.split('\\').enumerate() {
        if place == 0 {
            bytes.extend_from_slice(part.as_bytes())?;
        } else {
            push_escaped(bytes, part.as_bytes())?;
        }
    }
    Ok(())
}

/// Appends what stands behind a backslash: the byte that it stands for, and the text behind it.
fn push_escaped(bytes: &mut Vec<u8>, part: &[u8]) -> Result<(), Refusal>
    ensures cause { IfErr result (λ refusal. (refusal ≡ Refusal.Malformed) ⊎ (refusal ≡ Refusal.OutOfMemory)) }
{
    let (byte, rest) = match part {
        [b'n', rest @ ..] => (b'\n', rest),
        [b'r', rest @ ..] => (b'\r', rest),
        [b't', rest @ ..] => (b'\t', rest),
        [b's', rest @ ..] => (b' ', rest),
        [b'x', high, low, rest @ ..] => (hex_digit(*high)? * 16 + hex_digit(*low)?, rest),
        _ => return Err(Refusal::Malformed),
    };
    bytes.push(byte)?;
    bytes.extend_from_slice(rest)?;
    Ok(())
}

/// The value of a hexadecimal digit.
fn hex_digit(digit: u8) -> Result<u8, Refusal>
    ensures value { IfOk result (λ value. value < 16) }
    ensures cause { IsOkUnless result Refusal.Malformed }
{
    match digit {
        b'0'..=b'9' => Ok(digit - b'0'),
        b'a'..=b'f' => Ok(digit - b'a' + 10),
        _ => Err(Refusal::Malformed),
    }
}

/// The number that a word writes.
///
/// # Errors
///
/// `Malformed` where it writes none that `T` holds.
pub fn number<T: FromStr>(word: &str) -> Result<T, Refusal>
where
    T::Err: Drop,
    ensures cause { IsOkUnless result Refusal.Malformed }
{
    word.parse::<T>().map_err(|_| Refusal::Malformed)
}

/// The count that a word writes, which isn't 0.
///
/// # Errors
///
/// `Malformed` where it writes no number, and `Condition` where that is 0 or above the most.
pub fn count_up_to(word: &str, most: u16) -> Result<u16, Refusal>
    ensures some { IfOk result (λ count. 0 < count) }
    ensures few { IfOk result (λ count. count ≤ most) }
    ensures cause { IfErr result (λ refusal. (refusal ≡ Refusal.Malformed) ⊎ (refusal ≡ Refusal.Condition)) }
{
    let count = number::<u16>(word)?;
    if count == 0 || count > most {
        return Err(Refusal::Condition);
    }
    Ok(count)
}

/// Takes the number that a word writes in the place of another.
///
/// # Errors
///
/// `Malformed` where it writes none that `T` holds.
pub fn set_number<T: FromStr + Drop>(place: &mut T, word: &str) -> Result<(), Refusal>
where
    T::Err: Drop,
    ensures cause { IsOkUnless result Refusal.Malformed }
{
    *place = number(word)?;
    Ok(())
}

/// Appends the number that a word writes.
///
/// # Errors
///
/// `Malformed` where it writes none, and `OutOfMemory`.
pub fn push_number(numbers: &mut Vec<u64>, word: &str) -> Result<(), Refusal>
    ensures cause { IfErr result (λ refusal. (refusal ≡ Refusal.Malformed) ⊎ (refusal ≡ Refusal.OutOfMemory)) }
{
    numbers.push(number(word)?)?;
    Ok(())
}
