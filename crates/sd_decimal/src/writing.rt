ghost use Rattle.std.specs.Prelude.{◌≡◌, ◌+◌, ◌/◌, ◌%◌, ◌<◌, ◌≤◌, ◌==◌, ◌++◌, length, map, ◌∷◌, []};
ghost use Rattle.std.specs.Fmt.{decimal};
ghost use Rattle.arrayvec.specs.ArrayVec.{array_vec_len};
ghost use Rattle.sd_model_text.specs.Lists.{trim_end};
ghost use Rattle.sd_model_text.specs.Numbers.{behind_point, number_text};

use crate::number::{Line, Sum};
use crate::rounding::divided;

const MILLION: u64 = 1_000_000;

/// Appends the text of a number, which has at most 41 bytes.
pub fn write(v: Sum, out: &mut Line)
    requires { array_vec_len out.old + 48 ≤ 1024 }
    ensures text { out.new.items ≡ out.old.items ++ number_text v.0 }
    ensures len { array_vec_len out.new ≤ array_vec_len out.old + 41 }
{
    if v.0 < 0 {
        out.push(b'-');
    }
    let (whole, millionths) = divided(v.0.unsigned_abs(), MILLION);
    push_wide(whole, out);
    push_fraction(millionths as u32, out);
}

/// Appends the digits of a whole number.
pub fn write_whole(n: u128, out: &mut Line)
    requires { array_vec_len out.old + 39 ≤ 1024 }
    ensures text { out.new.items ≡ out.old.items ++ decimal n }
    ensures len { array_vec_len out.new ≤ array_vec_len out.old + 39 }
{
    push_wide(n, out);
}

// Appends the digits of a whole number.
fn push_wide(n: u128, out: &mut Line)
    requires { array_vec_len out.old + length (decimal n) ≤ 1024 }
    ensures { out.new.items ≡ out.old.items ++ decimal n }
{
    if n <= u128::from(u64::MAX) {
        push_whole(n as u64, out);
    } else {
        push_wide(n / 10, out);
        out.push(b'0' + (n % 10) as u8);
    }
}

// Appends the digits of a whole number of one machine word.
fn push_whole(n: u64, out: &mut Line)
    requires { array_vec_len out.old + length (decimal n) ≤ 1024 }
    ensures { out.new.items ≡ out.old.items ++ decimal n }
{
    if n < 10 {
        out.push(b'0' + n as u8);
    } else {
        push_whole(n / 10, out);
        out.push(b'0' + (n % 10) as u8);
    }
}

// Appends a point and the digits of a fraction, up to the last that isn't zero.
fn push_fraction(millionths: u32, out: &mut Line)
    requires { array_vec_len out.old + 7 ≤ 1024 }
    ensures { out.new.items
        ≡ out.old.items ++ behind_point (trim_end (λ d. d == 48) (map (λ unit. 48 + millionths / unit % 10) (100000 ∷ 10000 ∷ 1000 ∷ 100 ∷ 10 ∷ 1 ∷ []))) }
{
    if millionths == 0 {
        return;
    }
    let digits = six_digits(millionths);
    let kept = without_zeros(&digits);
    if kept.is_empty() {
        return;
    }
    out.push(b'.');
    for digit in kept {
        out.push(*digit);
    }
}

// The six digits of a fraction.
fn six_digits(millionths: u32) -> [u8; 6]
    ensures { result ≡ map (λ unit. 48 + millionths / unit % 10) (100000 ∷ 10000 ∷ 1000 ∷ 100 ∷ 10 ∷ 1 ∷ []) }
{
    [
        digit(millionths, 100_000),
        digit(millionths, 10_000),
        digit(millionths, 1000),
        digit(millionths, 100),
        digit(millionths, 10),
        digit(millionths, 1),
    ]
}

// The digit of `n` at the place of `unit`, a power of ten.
fn digit(n: u32, unit: u32) -> u8
    requires { 0 < unit }
    ensures { result ≡ 48 + n / unit % 10 }
{
    b'0' + (n / unit % 10) as u8
}

// The digits without the zeros at their end.
fn without_zeros(digits: &[u8]) -> &[u8]
    ensures { result.now ≡ trim_end (λ d. d == 48) digits.now }
{
    let mut kept = digits;
    while let Some((last, prefix)) = kept.split_last() {
        if *last != b'0' {
            return kept;
        }
        kept = prefix;
    }
    kept
}
