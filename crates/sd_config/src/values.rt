ghost use Rattle.std.specs.Prelude.{◌≡◌, ◌≤◌, length, IsTrue, IfOk, nat_le, ◌&&◌};
ghost use Rattle.std.specs.List.{list_all, list_any};
ghost use Rattle.std.specs.Str.{bytes_eq};
ghost use Rattle.toml.specs.View.{view};
ghost use Rattle.sd_model_text.specs.Names.{is_name_byte};
ghost use Rattle.sd_model_outside.specs.Backend.{backend_name};
ghost use Rattle.sd_model_settings.specs.Values.{whole_read, flag, text, decimal, is_name_text, is_filled_prefix, is_host};
ghost use Rattle.sd_model_settings.specs.Entries.{is_backend, Share, read_as};
ghost use Rattle.sd_law_settings.specs.Ranges.{IsWithin};
ghost use Rattle.sd_outside.specs.Backends.{kind_of};
ghost use Rattle.sd_config.specs.Answers.{seen_by};
ghost use Rattle.sd_config.specs.Values.{passes, longest};

use crate::fault::ValueFault;
use sd_decimal::{Micro, NumberFault};
use sd_outside::{BACKENDS, BackendKind, Name};
use sd_plan::{is_class_name, name_of};
use toml::Value;

/// Which texts a setting takes.
#[derive(Clone, Copy)]
pub(crate) enum TextRule {
    /// At most 64 bytes of names.
    Prefix,
    /// 1 to 64 bytes of names.
    FilledPrefix,
    /// 1 to 64 bytes from 33 to 126.
    Host,
    /// The name of a backend.
    Backend,
    /// The name of a class of timers' lines.
    ClassName,
    /// At most 255 bytes of names.
    Metric,
}

/// An integer from `least` to `most`.
pub(crate) fn whole(value: &Value, least: u32, most: u32) -> Result<u32, ValueFault>
    ensures value { seen_by (λ n. n) result ≡ whole_read least most (view value.now) }
    ensures range { IfOk result (IsWithin least most) }
{
    match value {
        Value::Integer(n) if i64::from(least) <= *n && *n <= i64::from(most) => Ok(*n as u32),
        Value::Integer(_) => Err(ValueFault::Range),
        _ => Err(ValueFault::Kind),
    }
}

/// An integer from `least` to `most`, whose product with an earlier one is at most `all`.
pub(crate) fn share(
    value: &Value,
    least: u32,
    most: u32,
    all: u64,
    earlier: u32,
) -> Result<u32, ValueFault>
    ensures { seen_by (λ n. n) result ≡ read_as (Share least most all earlier) (view value.now) }
{
    let number = whole(value, least, most)?;
    if u64::from(earlier) * u64::from(number) <= all {
        Ok(number)
    } else {
        Err(ValueFault::Range)
    }
}

/// A boolean.
pub(crate) fn flag(value: &Value) -> Result<bool, ValueFault>
    ensures { seen_by (λ b. b) result ≡ flag (view value.now) }
{
    match value {
        Value::Boolean(b) => Ok(*b),
        _ => Err(ValueFault::Kind),
    }
}

fn is_name_byte(b: u8) -> bool
    ensures { result ≡ is_name_byte b }
{
    b.is_ascii_alphanumeric() || matches!(b, b'_' | b'-' | b'.')
}

fn are_name_bytes(bytes: &[u8]) -> bool
    ensures { result ≡ list_all is_name_byte bytes.now }
{
    bytes.iter().all(|b| is_name_byte(*b))
}

fn are_host_bytes(bytes: &[u8]) -> bool
    ensures { result ≡ list_all (λ b. nat_le 33 b && nat_le b 126) bytes.now }
{
    bytes.iter().all(|b| 33 <= *b && *b <= 126)
}

fn is_prefix(bytes: &[u8]) -> bool
    ensures { result ≡ is_name_text 64 bytes.now }
{
    bytes.len() <= 64 && are_name_bytes(bytes)
}

fn is_metric(bytes: &[u8]) -> bool
    ensures { result ≡ is_name_text 255 bytes.now }
{
    bytes.len() <= 255 && are_name_bytes(bytes)
}

fn is_host(bytes: &[u8]) -> bool
    ensures { result ≡ is_host bytes.now }
{
    !bytes.is_empty() && bytes.len() <= 64 && are_host_bytes(bytes)
}

// Whether some bytes are the name of one of some backends.
fn is_name_of(bytes: &[u8], kinds: &[BackendKind]) -> bool
    ensures { result ≡ list_any (λ kind. bytes_eq bytes.now (backend_name (kind_of kind))) kinds.now }
{
    kinds.iter().any(|kind| bytes == kind.name().as_bytes())
}

fn is_backend(bytes: &[u8]) -> bool
    ensures { result ≡ is_backend bytes.now }
{
    is_name_of(bytes, &BACKENDS) || bytes == b"repeater".as_slice()
}

// Whether a text passes the rule.
fn passes(rule: TextRule, bytes: &[u8]) -> bool
    ensures passes { result ≡ passes rule bytes.now }
    ensures short { IsTrue result → length bytes.now ≤ longest rule }
{
    match rule {
        TextRule::Prefix => is_prefix(bytes),
        TextRule::FilledPrefix => !bytes.is_empty() && is_prefix(bytes),
        TextRule::Host => is_host(bytes),
        TextRule::Backend => is_backend(bytes),
        TextRule::ClassName => is_class_name(bytes),
        TextRule::Metric => is_metric(bytes),
    }
}

/// A string that passes the rule.
pub(crate) fn text(value: &Value, rule: TextRule) -> Result<Name, ValueFault>
    ensures { seen_by (λ n. n.items) result ≡ text (passes rule) (view value.now) }
{
    match value {
        Value::String(text) if passes(rule, text.as_bytes()) => Ok(name_of(text.as_bytes())),
        Value::String(_) => Err(ValueFault::Range),
        _ => Err(ValueFault::Kind),
    }
}

/// A decimal: an integer, or a string that holds a number text.
pub(crate) fn decimal(value: &Value) -> Result<Micro, ValueFault>
    ensures { seen_by (λ m. m.0) result ≡ decimal (view value.now) }
{
    match value {
        Value::Integer(n) if n.unsigned_abs() <= 1_000_000_000_000 => Ok(Micro(*n * 1_000_000)),
        Value::Integer(_) => Err(ValueFault::Range),
        Value::String(text) => match sd_decimal::read(text.as_bytes()) {
            Ok(number) => Ok(number),
            Err(NumberFault::Shape) => Err(ValueFault::Kind),
            Err(NumberFault::Range) => Err(ValueFault::Range),
        },
        _ => Err(ValueFault::Kind),
    }
}
