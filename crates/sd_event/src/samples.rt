use crate::fields::FieldValue::{Bytes, Number, Word};
use crate::fields::tell;
use log::{Level, Log};

/// How many bytes of a bad line are told.
const SHOWN: usize = 80;

/// A piece of a datagram, or a line, isn't a good one. Its first bytes are told.
pub fn bad_line<L: Log>(log: &L, cause: &str, line: &[u8]) {
    let prefix = match line.get(..SHOWN) {
        Some(prefix) => prefix,
        None => line,
    };
    let fields = [("cause", Word(cause)), ("line", Bytes(prefix))];
    tell(log, Level::Warn, "bad", &fields);
}

/// A shard's table that is full: how much of it is used, and how much there may be.
#[derive(Clone, Copy, Debug)]
pub struct Full {
    pub shard: u16,
    pub table: &'static str,
    pub used: u64,
    pub limit: u64,
}

/// So many samples found no room at their shard; one of them has this key.
pub fn samples_dropped<L: Log>(log: &L, samples: u64, full: Full, key: &[u8]) {
    let fields = [
        ("samples", Number(samples)),
        ("shard", Number(u64::from(full.shard))),
        ("table", Word(full.table)),
        ("used", Number(full.used)),
        ("limit", Number(full.limit)),
        ("key", Bytes(key)),
    ];
    tell(log, Level::Warn, "dropped", &fields);
}
