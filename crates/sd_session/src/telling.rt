//! What a session tells the log of what it executed.

use log::Log;
use sd_admin::{Command, HealthWord};
use sd_event::{deleted, health_set};
use sd_key::Kind;
use sd_shard::Keys;

/// A kind of metrics, in words.
fn kind_word(kind: Kind) -> &'static str {
    match kind {
        Kind::Counter => "counters",
        Kind::Timer => "timers",
        Kind::Gauge => "gauges",
        Kind::Set => "sets",
    }
}

/// Tells that rows with these keys were deleted, where there are some.
pub(crate) fn tell_deleted<L: Log>(log: &L, kind: Kind, keys: &Keys) {
    let rows = keys.len();
    if rows > 0 {
        deleted(log, kind_word(kind), rows);
    }
}

/// Tells that a line set the health, where it did.
pub(crate) fn tell_health<L: Log>(log: &L, line: &[u8]) {
    match Command::read(line) {
        Ok(Command::Health(HealthWord::Up)) => health_set(log, true),
        Ok(Command::Health(HealthWord::Down)) => health_set(log, false),
        _ => {}
    }
}
