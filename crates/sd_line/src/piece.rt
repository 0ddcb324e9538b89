ghost use Rattle.std.specs.Prelude.{◌≡◌, ◌^◌, ◌≤◌, ◌<◌, ℤ, pos, ◌≤ℤ◌, length, map, nat_lt, unsigned_abs, IfOk, IfSome, option_map, ok_or, true, None, Ok};
ghost use Rattle.sd_model_text.specs.Lists.{split};
ghost use Rattle.sd_model_text.specs.Numbers as numbers;
ghost use Rattle.sd_model_text.specs.Names as names;
ghost use Rattle.sd_model_text.specs.Lines as model;
ghost use Rattle.sd_decimal.specs.NumberFault.{seen_by as number_seen_by};
ghost use Rattle.sd_key.specs.Kind.{kind_of as kind_view};
ghost use Rattle.sd_line.specs.Piece.{Gives};
ghost use Rattle.sd_line.specs.Reading.{key_view, IsHashed};
ghost use Rattle.sd_line.specs.Values.{key_by};
ghost use Rattle.std.specs.Result.{result_map_both};

use crate::fields::Fields;
use crate::reading::{KeyBytes, Reading, has_sign};
use crate::sample::ONE;
use sd_decimal::{Micro, NumberFault, read};
use sd_key::{Key, KeyFault, Kind};

/// Why a piece has no sample: the first of these that holds.
#[derive(Clone, Copy, Debug, PartialEq, Eq)]
pub enum Bad {
    /// The piece has no colon.
    NoValue,
    /// There is no second field, or it is empty.
    NoType,
    /// The second field isn't `c`, `ms`, `g` or `s`.
    UnknownType,
    /// The value is no number, and the type isn't `s`. A timer's is out of range over 10^10.
    Number(NumberFault),
    /// The third field isn't empty, and isn't `@` and a number without a sign from 0.000001 to 1000.
    Rate,
    /// A timer's value is below 0.
    NegativeTimer,
    /// The name has no key.
    Key(KeyFault),
    /// A set's member has more than 128 bytes.
    MemberLong,
    /// There is a fourth field.
    ExtraField,
}

/// The most that a rate is.
const LARGEST_RATE: i64 = 1_000_000_000;

/// The most that a timer's value is.
const LARGEST_TIMER: u64 = 10_000_000_000_000_000;

/// The most bytes that a member has.
const LONGEST_MEMBER: usize = 128;

/// The kind that a type names.
fn kind_of(kind: &[u8]) -> Result<Kind, Bad>
    ensures { Gives kind_view result (model.typed kind.now) }
{
    if kind.is_empty() {
        Err(Bad::NoType)
    } else if kind == b"c".as_slice() {
        Ok(Kind::Counter)
    } else if kind == b"ms".as_slice() {
        Ok(Kind::Timer)
    } else if kind == b"g".as_slice() {
        Ok(Kind::Gauge)
    } else if kind == b"s".as_slice() {
        Ok(Kind::Set)
    } else {
        Err(Bad::UnknownType)
    }
}

/// A timer's value, which is at most 10^10.
fn timer_value(text: &[u8]) -> Result<Micro, NumberFault>
    ensures value { number_seen_by (λ v. v.0) result ≡ model.value_of names.Timer text.now }
    ensures bound { IfOk result (λ v. unsigned_abs v.0 ≤ 10 ^ 16) }
{
    let value = read(text)?;
    if value.0.unsigned_abs() > LARGEST_TIMER {
        return Err(NumberFault::Range);
    }
    Ok(value)
}

/// The number of a value; a set's is 0.
fn value_of(kind: Kind, text: &[u8]) -> Result<Micro, Bad>
    ensures value { Gives (λ v. v.0) result (result_map_both (λ v. v) model.BadNumber (model.value_of (kind_view kind) text.now)) }
    ensures bound { IfOk result (λ v. unsigned_abs v.0 ≤ 10 ^ 18) }
    ensures timer { kind_view kind ≡ names.Timer → IfOk result (λ v. unsigned_abs v.0 ≤ 10 ^ 16) }
{
    match kind {
        Kind::Counter | Kind::Gauge => read(text).map_err(|fault| Bad::Number(fault)),
        Kind::Timer => timer_value(text).map_err(|fault| Bad::Number(fault)),
        Kind::Set => Ok(Micro(0)),
    }
}

/// The rate of a field: 1 where it is empty, and else `@` and a number without a sign from 0.000001 to 1000.
fn rate_in(field: &[u8]) -> Option<Micro>
    ensures rate { option_map (λ r. unsigned_abs r.0) result ≡ model.rate_of field.now }
    ensures low { IfSome result (λ r. pos 1 ≤ℤ r.0) }
    ensures high { IfSome result (λ r. r.0 ≤ℤ pos (10 ^ 9)) }
{
    let [sign, text @ ..] = field else {
        return Some(ONE);
    };
    if *sign != b'@' || has_sign(text) {
        return None;
    }
    let rate = read(text).ok()?;
    if rate.0 < 1 || rate.0 > LARGEST_RATE {
        return None;
    }
    Some(rate)
}

/// The rate of a field, where it has one.
fn rate_of(field: &[u8]) -> Result<Micro, Bad>
    ensures rate { Gives (λ r. unsigned_abs r.0) result (ok_or (model.rate_of field.now) model.BadRate) }
    ensures low { IfOk result (λ r. pos 1 ≤ℤ r.0) }
    ensures high { IfOk result (λ r. r.0 ≤ℤ pos (10 ^ 9)) }
{
    rate_in(field).ok_or(Bad::Rate)
}

/// A timer's value isn't below 0.
fn not_below_zero(kind: Kind, value: Micro) -> Result<(), Bad>
    ensures { Gives (λ _. tt) result (model.unless_so (model.is_below_zero (kind_view kind) value.0) model.NegativeTimer) }
{
    match kind {
        Kind::Timer if value.0 < 0 => Err(Bad::NegativeTimer),
        _ => Ok(()),
    }
}

/// The key of a name, by what cleaning made of it.
fn key_of<'a>(
    name: &'a [u8],
    hash: u64,
    cleaned: &'a Option<Result<Key, KeyFault>>,
) -> Result<KeyBytes<'a>, Bad>
    requires cleaned { names.clean name.now ≡ key_by name.now cleaned.now }
    requires hash { cleaned.now ≡ None → hash ≡ names.fnv1a name.now }
    ensures key { Gives key_view result (result_map_both (λ key. key) model.BadKey (names.clean name.now)) }
    ensures some { IfOk result (λ k. 0 < length (key_view k)) }
    ensures short { IfOk result (λ k. length (key_view k) ≤ 255) }
    ensures hashed { IfOk result IsHashed }
{
    match cleaned {
        None => Ok(KeyBytes::Name { bytes: name, hash }),
        Some(Ok(key)) => Ok(KeyBytes::Cleaned(key)),
        Some(Err(fault)) => Err(Bad::Key(*fault)),
    }
}

/// A set's member hasn't too many bytes.
fn not_long(kind: Kind, text: &[u8]) -> Result<(), Bad>
    ensures { Gives (λ _. tt) result (model.unless_so (model.is_long_member (kind_view kind) text.now) model.LongMember) }
{
    match kind {
        Kind::Set if text.len() > LONGEST_MEMBER => Err(Bad::MemberLong),
        _ => Ok(()),
    }
}

/// There is no fourth field.
fn not_over(fields: &Fields<'_>) -> Result<(), Bad>
    ensures { Gives (λ _. tt) result (model.unless_so fields.now.has_more model.ExtraField) }
{
    if fields.has_more {
        return Err(Bad::ExtraField);
    }
    Ok(())
}

/// What a name and one value behind it say, or why they say nothing.
#[tactic(auto, unfolding(sd_model_text::specs::Lines::reading_behind))]
pub(crate) fn read_value<'a>(
    name: &'a [u8],
    hash: u64,
    cleaned: &'a Option<Result<Key, KeyFault>>,
    value: &'a [u8],
) -> Result<Reading<'a>, Bad>
    requires cleaned { names.clean name.now ≡ key_by name.now cleaned.now }
    requires hash { cleaned.now ≡ None → hash ≡ names.fnv1a name.now }
    ensures { Gives (λ r. r) result (model.reading_behind name.now (split 124 value.now)) }
{
    let fields = Fields::of(value);
    let kind = kind_of(fields.kind)?;
    let number = value_of(kind, fields.value)?;
    let rate = rate_of(fields.rate)?;
    not_below_zero(kind, number)?;
    let key = key_of(name, hash, cleaned)?;
    not_long(kind, fields.value)?;
    not_over(&fields)?;
    Ok(Reading::of(kind, key, fields.value, number, rate))
}
