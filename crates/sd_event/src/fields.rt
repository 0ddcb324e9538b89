//! How an event is told: a word, and fields with a key and a value each.

use log::kv::{Primitive, Source, ToValue, Value};
use log::{Level, Log, Metadata, Record};
use std::fmt::{self, Display, Formatter};

/// The value of a field.
#[derive_where(Clone, Copy)]
pub(crate) enum FieldValue<'a, D> {
    /// Bytes, which are shown escaped.
    Bytes(&'a [u8]),
    Word(&'a str),
    Number(u64),
    /// What shows itself as printable text.
    Shown(&'a D),
    /// The field isn't told.
    Nothing,
}

impl<'a, D> FieldValue<'a, D> {
    /// A number, where there is one.
    pub(crate) fn number<N: Into<u64>>(number: Option<N>) -> FieldValue<'a, D> {
        match number {
            Some(number) => FieldValue::Number(number.into()),
            None => FieldValue::Nothing,
        }
    }
}

impl<D: Display> Display for FieldValue<'_, D> {
    fn fmt<W: fmt::Write>(&self, f: &mut Formatter<W>) -> fmt::Result {
        match self {
            FieldValue::Bytes(bytes) => Display::fmt(&bytes.escape_ascii(), f),
            FieldValue::Word(word) => f.write_str(*word),
            FieldValue::Number(number) => Display::fmt(number, f),
            FieldValue::Shown(value) => Display::fmt(*value, f),
            FieldValue::Nothing => Ok(()),
        }
    }
}

impl<'a, D: Display> ToValue for FieldValue<'a, D> {
    type Shown = FieldValue<'a, D>;

    fn to_value(&self) -> Value<'_, FieldValue<'a, D>> {
        match self {
            FieldValue::Number(number) => Value::U64(*number),
            FieldValue::Nothing => Value::Null,
            _ => Value::Display(self),
        }
    }
}

/// A field of an event.
pub(crate) type Field<'a, D> = (&'a str, FieldValue<'a, D>);

/// A field of bytes, a word or a number.
pub(crate) type PlainField<'a> = Field<'a, Primitive>;

/// Tells an event with all fields of a source.
pub(crate) fn tell_all<L: Log, S: Source>(log: &L, level: Level, event: &str, fields: &S) {
    let metadata = Metadata::new(level, "");
    if log.enabled(&metadata) {
        log.log(&Record::new(metadata, event, fields, ()));
    }
}

/// Tells an event, of whose fields some show themselves.
pub(crate) fn tell_shown<L: Log, D: Display>(
    log: &L,
    level: Level,
    event: &str,
    fields: &[Field<'_, D>],
) {
    tell_all(log, level, event, &fields);
}

/// Tells an event.
pub(crate) fn tell<L: Log>(log: &L, level: Level, event: &str, fields: &[PlainField<'_>]) {
    tell_all(log, level, event, &fields);
}
