//! What a record of the log says, as bytes.

use arrayvec::ArrayVec;
use log::kv::{self, Source, Value, VisitSource};
use sd_edge::LogLine;
use sd_outside::Address;
use std::fmt::{self, Display, Write};

/// The key of how many samples a record is about, which are told of several records together.
pub(crate) const COUNTED: &str = "samples";

/// Text that is cut where it is too long.
#[derive(Clone, Debug, Drop)]
pub struct ShortText<const MOST: usize> {
    pub(crate) bytes: ArrayVec<u8, MOST>,
}

impl<const MOST: usize> ShortText<MOST> {
    /// None.
    pub(crate) fn new() -> ShortText<MOST> {
        ShortText {
            bytes: ArrayVec::new(),
        }
    }

    /// How a value is shown.
    pub(crate) fn of<D: Display>(value: &D) -> ShortText<MOST> {
        let mut text = ShortText::new();
        // cutting is no error
        let _ = write!(text, "{value}");
        text
    }

    /// Its bytes, so many at most.
    pub fn as_slice(&self) -> &[u8] {
        self.bytes.as_slice()
    }
}

impl<const MOST: usize> Write for ShortText<MOST> {
    fn write_str(&mut self, s: &str) -> fmt::Result {
        for &byte in s.as_bytes() {
            let _ = self.bytes.try_push(byte);
        }
        Ok(())
    }
}

/// An address of a host with its port, where there is one.
pub fn address_text(at: &Option<Address>) -> ShortText<280> {
    match at {
        Some(Address::Host { host, port }) => {
            let host = host.as_slice().escape_ascii();
            ShortText::of(&format_args!("{host}:{port}"))
        }
        _ => ShortText::new(),
    }
}

/// How many of something a record is about: what its pair of this key says, and else one.
pub(crate) fn amount_in<K: Source>(source: &K, key: &'static str) -> u64 {
    let mut amount = Amount { key, number: 1 };
    // one that can't be shown is one
    let _ = source.visit(&mut amount);
    amount.number
}

#[derive(Drop)]
struct Amount {
    key: &'static str,
    number: u64,
}

impl VisitSource for Amount {
    fn visit_pair<D: Display>(&mut self, key: &str, value: Value<'_, D>) -> Result<(), kv::Error> {
        if key == self.key {
            if let Value::U64(number) = value {
                self.number = number;
            }
        }
        Ok(())
    }
}

/// The pairs of a record behind one another, and whether its reason is among them.
#[derive(Clone, Debug, Drop)]
pub(crate) struct Pairs {
    pub line: LogLine,
    pub has_reason: bool,
}

impl Pairs {
    /// Those of a record. A value that isn't there is left out.
    pub(crate) fn of<K: Source>(source: &K) -> Pairs {
        let mut pairs = Pairs {
            line: LogLine::new(),
            has_reason: false,
        };
        // a pair that can't be shown is left out
        let _ = source.visit(&mut pairs);
        pairs
    }
}

impl VisitSource for Pairs {
    fn visit_pair<D: Display>(&mut self, key: &str, value: Value<'_, D>) -> Result<(), kv::Error> {
        if !matches!(&value, Value::Null) && key != COUNTED {
            let text = ShortText::<512>::of(&value);
            if !text.bytes.is_empty() {
                self.line.push_pair(key.as_bytes(), text.as_slice());
            }
        }
        self.has_reason = self.has_reason || key == "reason";
        Ok(())
    }
}
