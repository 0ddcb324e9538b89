ghost use Rattle.std.specs.Prelude.{◌≢◌};

use sd_case::{Refusal, bytes_of, key_of};
use sd_decimal::{Micro, read};
use sd_key::{Key, Kind};
use sd_line::{Member, Sample};
use std::alloc::Global;

// the largest rate
const LARGEST_RATE: i64 = 1_000_000_000;

// the largest magnitude of a value
const LARGEST_VALUE: u64 = 1_000_000_000_000_000_000;

// the largest value of a timer
const LARGEST_TIMER: i64 = 10_000_000_000_000_000;

/// The sample that a word stands for, in the form of StatsD: `NAME:VALUE|TYPE` or `NAME:VALUE|TYPE|@RATE`. The
/// value of a set is its member.
pub(crate) fn sample_of(alloc: Global, word: &str) -> Result<Sample, Refusal> {
    let (name, fields) = word.split_once(':').ok_or(Refusal::Malformed)?;
    let (value, rest) = fields.split_once('|').ok_or(Refusal::Malformed)?;
    let (letters, rate) = rest.split_once("|@").unwrap_or((rest, "1"));
    let rate = decimal(rate)?;
    let key = key_of(alloc, name)?;
    match letters {
        "c" => sample_with(Kind::Counter, key, decimal(value)?, rate),
        "g" => gauge_sample(key, value, rate),
        "ms" => timer_sample(key, decimal(value)?, rate),
        "s" => set_sample(alloc, key, value, rate),
        _ => Err(Refusal::Malformed),
    }
}

/// The number that a word writes.
fn decimal(word: &str) -> Result<Micro, Refusal> {
    read(word.as_bytes()).map_err(|_| Refusal::Malformed)
}

/// A sample of a counter, gauge or set, without a sign or member.
fn sample_with(kind: Kind, key: Key, value: Micro, rate: Micro) -> Result<Sample, Refusal>
    requires { kind ≢ Kind.Timer }
{
    if key.is_empty()
        || rate.0 < 1
        || rate.0 > LARGEST_RATE
        || value.0.unsigned_abs() > LARGEST_VALUE
    {
        return Err(Refusal::Condition);
    }
    Ok(Sample {
        kind,
        key,
        value,
        rate,
        signed: false,
        member: Member::new(),
    })
}

/// A sample of a gauge, which a value with a sign is added to.
fn gauge_sample(key: Key, value: &str, rate: Micro) -> Result<Sample, Refusal> {
    let mut sample = sample_with(Kind::Gauge, key, decimal(value)?, rate)?;
    sample.signed = value.starts_with('+') || value.starts_with('-');
    Ok(sample)
}

/// A sample of a timer.
fn timer_sample(key: Key, value: Micro, rate: Micro) -> Result<Sample, Refusal> {
    if key.is_empty()
        || rate.0 < 1
        || rate.0 > LARGEST_RATE
        || value.0 < 0
        || value.0 > LARGEST_TIMER
    {
        return Err(Refusal::Condition);
    }
    Ok(Sample {
        kind: Kind::Timer,
        key,
        value,
        rate,
        signed: false,
        member: Member::new(),
    })
}

/// A sample of a set with a member.
fn set_sample(alloc: Global, key: Key, member: &str, rate: Micro) -> Result<Sample, Refusal> {
    let bytes = bytes_of(alloc, member)?;
    let mut sample = sample_with(Kind::Set, key, Micro(0), rate)?;
    if sample.member.try_extend_from_slice(&bytes).is_err() {
        return Err(Refusal::Condition);
    }
    Ok(sample)
}
