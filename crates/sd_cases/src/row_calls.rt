use sd_decimal::Micro;
use sd_key::{Key, Kind};
use std::str::Split;

/// A kind and a key as a case names them, as `c:a`.
#[derive(Drop)]
pub struct Name {
    pub kind: Kind,
    pub key: Key,
}

/// The keys of one home in the index, or keys as they come.
#[derive(Clone, Copy)]
pub enum Family {
    Any,
    OneHome,
}

/// The counters with the keys of a family from one number up to another.
#[derive(Clone, Copy)]
pub struct Range {
    pub family: Family,
    pub from: u32,
    pub to: u32,
}

/// A call of a case.
#[derive(Drop)]
pub enum Call {
    Find(Name),
    Add(Name),
    Remove(Name),
    Set(Name, Micro, u32),
    Free,
    Len,
    /// Copies each place of the rows to the spare ones.
    Copy,
    /// The spare ones and the rows change places.
    Swap,
    Fill(Range),
    Count(Range),
    /// Removes them, each so many behind the one before.
    Drain(Range, u32),
}

fn read_number(word: Option<&str>) -> Option<u32> {
    word?.parse::<u32>().ok()
}

fn read_kind(word: &str) -> Option<Kind> {
    match word {
        "c" => Some(Kind::Counter),
        "t" => Some(Kind::Timer),
        "g" => Some(Kind::Gauge),
        "s" => Some(Kind::Set),
        _ => None,
    }
}

fn read_family(word: &str) -> Option<Family> {
    match word {
        "any" => Some(Family::Any),
        "home" => Some(Family::OneHome),
        _ => None,
    }
}

/// The call that a word is, as `add:c:a`, or none.
pub fn read_call(word: &str) -> Option<Call> {
    let mut parts = word.split(':');
    match parts.next()? {
        "free" => Some(Call::Free),
        "len" => Some(Call::Len),
        "copy" => Some(Call::Copy),
        "swap" => Some(Call::Swap),
        "find" => read_name(&mut parts).map(|name| Call::Find(name)),
        "add" => read_name(&mut parts).map(|name| Call::Add(name)),
        "remove" => read_name(&mut parts).map(|name| Call::Remove(name)),
        "set" => read_set(&mut parts),
        "fill" => read_range(&mut parts).map(|range| Call::Fill(range)),
        "count" => read_range(&mut parts).map(|range| Call::Count(range)),
        "drain" => read_drain(&mut parts),
        _ => None,
    }
}

fn read_set(parts: &mut Split<'_, char>) -> Option<Call> {
    let name = read_name(parts)?;
    let base = read_number(parts.next())?;
    Some(Call::Set(name, Micro(i64::from(base)), read_number(parts.next())?))
}

fn read_drain(parts: &mut Split<'_, char>) -> Option<Call> {
    let range = read_range(parts)?;
    Some(Call::Drain(range, read_number(parts.next())?))
}

fn read_name(parts: &mut Split<'_, char>) -> Option<Name> {
    Some(Name {
        kind: read_kind(parts.next()?)?,
        key: Key::of(parts.next()?.as_bytes())?,
    })
}

fn read_range(parts: &mut Split<'_, char>) -> Option<Range> {
    Some(Range {
        family: read_family(parts.next()?)?,
        from: read_number(parts.next())?,
        to: read_number(parts.next())?,
    })
}
