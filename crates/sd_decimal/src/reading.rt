ghost use Rattle.std.specs.Prelude.{◌≡◌, ℕ, ℤ, ◌+◌, ◌*◌, ◌^◌, ◌<◌, ◌≤◌, ◌↔◌, length, take, drop, min, IsTrue, IsSome, IfSome, IfNone, IfOk, Some, None, Err, slice_index, unsigned_abs};
ghost use Rattle.std.specs.Char.{is_ascii_digit, digit_value};
ghost use Rattle.std.specs.List.{prefix_len};
ghost use Rattle.std.specs.Str.Parse.{digits_value_after};
ghost use Rattle.sd_model_text.specs.Numbers.{rounded, within_range, BadShape, exponent_behind, decimal_magnitude, decimal_value, has_minus, without_sign};
ghost use Rattle.sd_decimal.specs.Digits.{Keeps};
ghost use Rattle.sd_decimal.specs.Exponent.{IsPower, exponent_at, placed};
ghost use Rattle.sd_decimal.specs.NumberFault.{seen_by};

use crate::number::{Micro, NumberFault};

// 10^12 in millionths.
const LARGEST: u64 = 1_000_000_000_000_000_000;
// The places of a millionth behind the point.
const PLACES: usize = 6;
// The digits that an exponent has at most.
const EXPONENT_DIGITS: usize = 4;
// The places of the largest power of ten in 64 bits.
const POWER_PLACES: usize = 19;

/// The number that a text writes: an optional sign, then digits with at most one point among, before or
/// after them, then an exponent or nothing. An exponent is `e` or `E`, an optional sign, and one to four
/// digits. The exact decimal times ten to the exponent is rounded once to millionths, half away from zero.
///
/// # Errors
///
/// `Shape` where the text has another form, and `Range` where the form is right and the rounded magnitude is
/// over 10^12.
pub fn read(text: &[u8]) -> Result<Micro, NumberFault>
    ensures value { seen_by (λ v. v.0) result ≡ decimal_value text.now }
    ensures bound { IfOk result (λ v. unsigned_abs v.0 ≤ 10 ^ 18) }
{
    let (is_negative, unsigned) = split_sign(text);
    let magnitude = read_magnitude(unsigned)? as i64;
    Ok(Micro(if is_negative { -magnitude } else { magnitude }))
}

// Whether a text begins with `-`, and the text behind its sign.
fn split_sign(text: &[u8]) -> (bool, &[u8])
    ensures sign { result.0 ≡ has_minus text.now }
    ensures rest { result.1.now ≡ without_sign text.now }
{
    match text.first() {
        Some(b'-') => (true, &text[1..]),
        Some(b'+') => (false, &text[1..]),
        _ => (false, text),
    }
}

// The number that a text without a sign writes.
fn read_magnitude(text: &[u8]) -> Result<u64, NumberFault>
    ensures value { seen_by (λ n. n) result ≡ decimal_magnitude text.now }
    ensures bound { IfOk result (λ n. n ≤ 10 ^ 18) }
{
    let Some(mantissa) = mantissa_of(text) else {
        return Err(NumberFault::Shape);
    };
    let Some(exponent) = exponent_at(&text[mantissa.end..]) else {
        return Err(NumberFault::Shape);
    };
    mantissa.digits.placed(mantissa.places, exponent)
}

// The digits that a number text begins with, and a point among them: where these end, and how many digits
// stand behind the point.
#[derive(Clone, Copy)]
struct Mantissa {
    end: usize,
    places: usize,
    digits: Digits,
}

fn mantissa_of(text: &[u8]) -> Option<Mantissa>
    ensures end { IfSome result (λ m. m.end ≤ length text.now) }
    ensures places { IfSome result (λ m. m.places ≤ length text.now) }
    ensures value { IfSome result (λ m. (n : ℕ) × Keeps n m.digits.kept m.digits.more
        × (decimal_magnitude text.now ≡ placed n m.places (exponent_at (drop m.end text.now)))) }
    ensures none { IfNone result (decimal_magnitude text.now ≡ Err BadShape) }
{
    let whole = NO_DIGITS.with_run(text);
    if has_point_at(text, whole.places) {
        let fraction = whole.digits.with_run(&text[whole.places + 1..]);
        if whole.places + fraction.places == 0 {
            return None;
        }
        return Some(Mantissa {
            end: whole.places + 1 + fraction.places,
            places: fraction.places,
            digits: fraction.digits,
        });
    }
    if whole.places == 0 {
        return None;
    }
    Some(Mantissa {
        end: whole.places,
        places: 0,
        digits: whole.digits,
    })
}

// Whether a point stands at a place.
fn has_point_at(text: &[u8], place: usize) -> bool
    ensures { IsTrue result ↔ (place < length text.now) × (slice_index text.now place ≡ 46) }
{
    place < text.len() && text[place] == b'.'
}

// Ten to an exponent: a power of ten over another, of which one is 1.
#[derive(Clone, Copy)]
struct Exponent {
    up: usize,
    down: usize,
}

const NO_EXPONENT: Exponent = Exponent { up: 0, down: 0 };

// The exponent that a text is from its mark on: 0 where nothing stands there, and none where it has another
// form.
fn exponent_at(text: &[u8]) -> Option<Exponent>
    ensures value { IfSome result (λ x. (e : ℤ) × (exponent_at text.now ≡ Some e) × IsPower e x.up x.down) }
    ensures up { IfSome result (λ x. x.up ≤ 9999) }
    ensures down { IfSome result (λ x. x.down ≤ 9999) }
    ensures none { IfNone result (exponent_at text.now ≡ None) }
{
    match text.first() {
        None => Some(NO_EXPONENT),
        Some(b'e' | b'E') => exponent_behind(&text[1..]),
        Some(_) => None,
    }
}

// The exponent behind its mark: an optional sign and one to four digits.
fn exponent_behind(text: &[u8]) -> Option<Exponent>
    ensures value { IfSome result (λ x. (e : ℤ) × (exponent_behind text.now ≡ Some e) × IsPower e x.up x.down) }
    ensures up { IfSome result (λ x. x.up ≤ 9999) }
    ensures down { IfSome result (λ x. x.down ≤ 9999) }
    ensures none { IfNone result (exponent_behind text.now ≡ None) }
{
    let (is_negative, digits) = split_sign(text);
    let run = NO_DIGITS.with_run(digits);
    if run.places == 0 || run.places > EXPONENT_DIGITS || run.places < digits.len() {
        return None;
    }
    let magnitude = run.digits.kept as usize;
    Some(if is_negative {
        Exponent {
            up: 0,
            down: magnitude,
        }
    } else {
        Exponent {
            up: magnitude,
            down: 0,
        }
    })
}

// A number by its digits. Those behind a number over `LARGEST` are left out, and counted as `more`.
#[derive(Clone, Copy)]
struct Digits {
    kept: u64,
    more: usize,
}

const NO_DIGITS: Digits = Digits { kept: 0, more: 0 };

// The digits that a text begins with, behind those that stood before: how many they are, and all of them.
#[derive(Clone, Copy)]
struct Run {
    places: usize,
    digits: Digits,
}

impl Digits {
    // The number with one digit more behind it.
    fn with_digit(self, digit: u64) -> Digits
        requires digit { digit < 10 }
        requires room { self.more + 1 < 2 ^ 64 }
        ensures digits { (n : ℕ) → Keeps n self.kept self.more → Keeps (n * 10 + digit) result.kept result.more }
        ensures more { result.more ≤ self.more + 1 }
    {
        if self.kept <= LARGEST {
            Digits {
                kept: self.kept * 10 + digit,
                more: self.more,
            }
        } else {
            Digits {
                kept: self.kept,
                more: self.more + 1,
            }
        }
    }

    // The number with the digits that a text begins with behind it.
    fn with_run(self, text: &[u8]) -> Run
        requires { self.more + length text.now < 2 ^ 64 }
        ensures places { result.places ≡ prefix_len is_ascii_digit text.now }
        ensures within { result.places ≤ length text.now }
        ensures digits { (n : ℕ) → Keeps n self.kept self.more
            → Keeps (digits_value_after 10 n (take result.places text.now)) result.digits.kept result.digits.more }
        ensures more { result.digits.more ≤ self.more + result.places }
    {
        let mut digits = self;
        for (i, byte) in text.iter().enumerate() {
            let Some(digit) = digit_of(*byte) else {
                return Run { places: i, digits };
            };
            digits = digits.with_digit(digit);
        }
        Run {
            places: text.len(),
            digits,
        }
    }

    // The number in millionths, where so many of its digits stand behind the point, times ten to an exponent.
    fn placed(self, places: usize, exponent: Exponent) -> Result<u64, NumberFault>
        requires places { places < 2 ^ 63 }
        requires up { exponent.up ≤ 9999 }
        requires down { exponent.down ≤ 9999 }
        ensures value { (n : ℕ) (e : ℤ) → Keeps n self.kept self.more → IsPower e exponent.up exponent.down
            → seen_by (λ m. m) result ≡ placed n places (Some e) }
        ensures bound { IfOk result (λ m. m ≤ 10 ^ 18) }
    {
        let up = PLACES + exponent.up;
        let down = places + exponent.down;
        if down <= up {
            let factor = power_of_ten(up - down);
            within_range(u128::from(self.kept) * u128::from(factor))
        } else {
            self.divided(down - up)
        }
    }

    // The number over a power of ten. Where that takes off no more digits than are left out, what stays is over
    // `LARGEST`; and where it takes off all that are kept and more, what stays is less than a half.
    fn divided(self, places: usize) -> Result<u64, NumberFault>
        requires { 0 < places }
        ensures value { (n : ℕ) → Keeps n self.kept self.more → seen_by (λ m. m) result
            ≡ within_range (rounded n (10 ^ places)) }
        ensures bound { IfOk result (λ m. m ≤ 10 ^ 18) }
    {
        if places <= self.more {
            return Err(NumberFault::Range);
        }
        let left = places - self.more;
        if left > POWER_PLACES {
            return Ok(0);
        }
        within_range(u128::from(nearest(self.kept, power_of_ten(left))))
    }
}

// A magnitude that is at most 10^12.
fn within_range(magnitude: u128) -> Result<u64, NumberFault>
    ensures value { seen_by (λ m. m) result ≡ within_range magnitude }
    ensures bound { IfOk result (λ m. m ≤ 10 ^ 18) }
{
    if magnitude > u128::from(LARGEST) {
        Err(NumberFault::Range)
    } else {
        Ok(magnitude as u64)
    }
}

// The natural number nearest to `a / b`, and in a tie the greater one.
fn nearest(a: u64, b: u64) -> u64
    requires { 0 < b }
    ensures { result ≡ rounded a b }
{
    let quotient = a / b;
    let rest = a % b;
    if rest < b - rest {
        quotient
    } else {
        quotient + 1
    }
}

// Ten to a power, or the largest such number in 64 bits where that is less.
fn power_of_ten(places: usize) -> u64
    ensures { result ≡ 10 ^ min places 19 }
{
    match places {
        0 => 1,
        1 => 10,
        2 => 100,
        3 => 1000,
        4 => 10_000,
        5 => 100_000,
        6 => 1_000_000,
        7 => 10_000_000,
        8 => 100_000_000,
        9 => 1_000_000_000,
        10 => 10_000_000_000,
        11 => 100_000_000_000,
        12 => 1_000_000_000_000,
        13 => 10_000_000_000_000,
        14 => 100_000_000_000_000,
        15 => 1_000_000_000_000_000,
        16 => 10_000_000_000_000_000,
        17 => 100_000_000_000_000_000,
        18 => 1_000_000_000_000_000_000,
        _ => 10_000_000_000_000_000_000,
    }
}

// The value of a digit.
fn digit_of(byte: u8) -> Option<u64>
    ensures digit { IsSome result ↔ IsTrue (is_ascii_digit byte) }
    ensures number { IfSome result (λ d. d ≡ digit_value byte) }
    ensures bound { IfSome result (λ d. d < 10) }
{
    if byte.is_ascii_digit() {
        Some(u64::from(byte - b'0'))
    } else {
        None
    }
}
