use crate::fields::FieldValue::{Bytes, Number, Shown, Word};
use crate::fields::{tell, tell_shown};
use log::{Level, Log};
use std::fmt::{self, Display, Formatter};

/// What texts or datagrams are sent to.
#[derive(Clone, Copy, Debug, PartialEq, Eq)]
pub enum Link {
    Graphite,
    Console,
    /// A target of the repeater.
    Target,
}

/// A link failed: at its first failure in a row, and at each second, fourth, eighth and so on. An empty address isn't told.
pub fn link_down<'a, L: Log, D: Display>(
    log: &L,
    link: Link,
    address: &'a [u8],
    reason: &'a D,
    times: u64,
) {
    let event = match link {
        Link::Graphite => "graphite_down",
        Link::Console => "console_down",
        Link::Target => "target_down",
    };
    let fields = [
        ("address", Bytes(address)),
        ("reason", Shown(reason)),
        ("times", Number(times)),
    ];
    tell_shown(log, Level::Warn, event, &fields);
}

/// A link is there again, after so many failures in a row.
pub fn link_up<L: Log>(log: &L, link: Link, address: &[u8], missed: u64) {
    let event = match link {
        Link::Graphite => "graphite_up",
        Link::Console => "console_up",
        Link::Target => "target_up",
    };
    let fields = [("address", Bytes(address)), ("missed", Number(missed))];
    tell(log, Level::Info, event, &fields);
}

/// So many texts of a backend in a row found no place at an outlet, or were too long for it; the last of them for this cause.
pub fn text_skipped<'a, L: Log>(log: &L, backend: &'a str, texts: u64, cause: &'a str) {
    let fields = [
        ("backend", Word(backend)),
        ("texts", Number(texts)),
        ("cause", Word(cause)),
    ];
    tell(log, Level::Warn, "skipped", &fields);
}

/// A backend's outlet holds texts of so many bytes, and the text of full tables may have more.
pub fn outlets_small<L: Log>(log: &L, backend: &str, bytes: u64, full: u64) {
    let fields = [
        ("backend", Word(backend)),
        ("bytes", Number(bytes)),
        ("full", Number(full)),
    ];
    tell(log, Level::Warn, "outlets_small", &fields);
}

/// A host and a port.
#[derive(Clone, Copy, Debug)]
pub struct HostPort<'a> {
    pub host: &'a [u8],
    pub port: u16,
}

impl Display for HostPort<'_> {
    fn fmt<W: fmt::Write>(&self, f: &mut Formatter<W>) -> fmt::Result {
        let host = self.host.escape_ascii();
        write!(f, "{host}:{}", self.port)
    }
}

/// A check found that a node isn't up any more. It said so itself, where it answered.
pub fn node_down<L: Log>(log: &L, address: HostPort<'_>, has_answered: bool) {
    let address = ("address", Shown(&address));
    if has_answered {
        let fields = [address, ("reason", Word("says down"))];
        tell_shown(log, Level::Warn, "node_down", &fields);
    } else {
        tell_shown(log, Level::Warn, "node_down", &[address]);
    }
}

/// A check found that a node is up again.
pub fn node_up<L: Log>(log: &L, address: HostPort<'_>) {
    tell_shown(log, Level::Info, "node_up", &[("address", Shown(&address))]);
}
