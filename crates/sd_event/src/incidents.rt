use crate::fields::FieldValue::{Number, Shown, Word};
use crate::fields::{tell, tell_shown};
use log::{Level, Log};
use std::fmt::Display;

/// An admin command deleted so many rows of a kind.
pub fn deleted<L: Log>(log: &L, kind: &str, rows: usize) {
    let rows = u64::try_from(rows).unwrap_or(u64::MAX);
    let fields = [("kind", Word(kind)), ("rows", Number(rows))];
    tell(log, Level::Info, "deleted", &fields);
}

/// An admin command set the health.
pub fn health_set<L: Log>(log: &L, is_up: bool) {
    let state = if is_up { "up" } else { "down" };
    tell(log, Level::Info, "health", &[("state", Word(state))]);
}

/// A client of a port was let go.
pub fn client_let_go<'a, L: Log, D: Display>(log: &L, address: &'a D, port: u16, reason: &'a str) {
    let fields = [
        ("address", Shown(address)),
        ("port", Number(u64::from(port))),
        ("reason", Word(reason)),
    ];
    tell_shown(log, Level::Warn, "client", &fields);
}

/// A flush begins so many milliseconds after its tick.
pub fn flush_is_late<L: Log>(log: &L, ms: u64) {
    tell(log, Level::Warn, "late", &[("ms", Number(ms))]);
}
