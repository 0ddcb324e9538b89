//! What a server and a proxy tell the log of their start and their end.

use crate::status::{Part, Status};
use log::Log;
use sd_config::{ConfigFault, Settings};
use sd_decimal::{Line, write_whole};
use sd_event::{
    Places, ProxyParts, ServerParts, SettingRefused, outlets_small, proxy_started, refused,
    refused_setting, refused_toml, refused_with, server_started, stopped,
};
use sd_outside::{Address, BACKENDS, BackendKind, Name};
use sd_run::{full_text, names_backend};
use std::alloc::Global;
use std::str;

/// How many bytes a host and a colon have at most that a port is told behind.
const MOST_HOST: usize = 900;

/// The version that is told.
const VERSION: &str = "1.0.0";

/// Where a setting stands in a settings file: its line, counted from 1, and what stands behind its name.
#[derive(Clone, Copy)]
struct Found<'a> {
    line: u64,
    value: &'a str,
}

/// The name of a table that a line opens, where it opens one.
fn opened_table(line: &str) -> Option<&str> {
    let name = line.strip_prefix('[')?;
    Some(name.trim_start_matches('[').trim_end_matches(']').trim())
}

/// Where the setting of a name stands in a file. The name of one in a table has the table's before it, with a point between.
fn place_of<'a>(text: &'a str, name: &str) -> Option<Found<'a>> {
    let (table, key) = name.rsplit_once('.').unwrap_or(("", name));
    let mut is_open = table.is_empty();
    for (index, line) in text.lines().enumerate() {
        let line = line.trim();
        if let Some(name) = opened_table(line) {
            is_open = name == table;
        } else if let Some((left, value)) = line.split_once('=') {
            if is_open && left.trim().trim_matches('"') == key {
                return Some(Found {
                    line: (index as u64).saturating_add(1),
                    value: value.trim(),
                });
            }
        }
    }
    None
}

/// The line and the column of a place in a file, both counted from 1.
fn line_and_column(text: &[u8], place: usize) -> (u64, u64) {
    let (mut line, mut column) = (1u64, 1u64);
    for &byte in text.iter().take(place) {
        if byte == b'\n' {
            line = line.saturating_add(1);
            column = 1;
        } else {
            column = column.saturating_add(1);
        }
    }
    (line, column)
}

/// The name of the file at an address.
fn file_of(at: &Address) -> &[u8] {
    match at {
        Address::File(name) => name.as_slice(),
        Address::Host { .. } | Address::Datagrams { .. } => b"",
    }
}

/// Tells where a text ceases to be TOML.
fn tell_no_toml<L: Log>(log: &L, alloc: Global, at: &Address, text: &[u8]) {
    let place = match toml::table_from_slice(alloc, text) {
        Ok(_) => None,
        Err(error) => error.span(),
    };
    let (line, column) = match place {
        Some(span) => line_and_column(text, span.start),
        None => (1, 1),
    };
    refused_toml(log, file_of(at), line, column);
}

/// Tells what is wrong with a setting of a name in a file.
fn tell_setting<L: Log>(
    log: &L,
    at: &Address,
    text: &[u8],
    name: &Name,
    reason: &str,
    allowed: &str,
) {
    let found = match (str::from_utf8(text), str::from_utf8(name.as_slice())) {
        (Ok(text), Ok(name)) => place_of(text, name),
        _ => None,
    };
    refused_setting(
        log,
        &SettingRefused {
            file: file_of(at),
            setting: name.as_slice(),
            reason,
            line: found.map(|found| found.line),
            found: match found {
                Some(found) => found.value.as_bytes(),
                None => b"",
            },
            allowed,
        },
    );
}

/// Tells why a settings file with this text isn't accepted.
fn tell_fault<L: Log>(log: &L, alloc: Global, at: &Address, text: &[u8], fault: &ConfigFault) {
    let allowed = fault.allowed().unwrap_or("");
    match fault {
        ConfigFault::OutOfMemory => refused_with(log, "memory", "out of memory"),
        ConfigFault::NotToml => tell_no_toml(log, alloc, at, text),
        ConfigFault::Unknown { name } => tell_setting(log, at, text, name, "unknown", allowed),
        ConfigFault::WrongKind { name } => {
            tell_setting(log, at, text, name, "wrong kind", allowed)
        }
        ConfigFault::OutOfRange { name } => {
            tell_setting(log, at, text, name, "out of range", allowed)
        }
    }
}

/// Tells why the settings of the file at an address aren't those of a proxy, by what `check_fit` answered.
pub fn tell_unfit<L: Log>(log: &L, alloc: Global, at: &Address, status: &Status) {
    if let Status::Config(fault) = status {
        tell_fault(log, alloc, at, b"", fault);
    }
}

/// Tells why a settings file gave no settings, where it didn't.
pub(crate) fn tell_values<L: Log>(
    log: &L,
    alloc: Global,
    at: &Address,
    text: &[u8],
    values: &Result<Settings, Status>,
) {
    match values {
        Ok(_) => {}
        Err(Status::Config(fault)) => tell_fault(log, alloc, at, text, fault),
        Err(_) => refused_with(log, "memory", "out of memory"),
    }
}

/// Tells that a settings file couldn't be opened or read, where that is so.
pub fn tell_unread<L: Log>(log: &L, at: &Address, status: &Status) {
    match status {
        Status::OpenFault { .. } | Status::ReadFault { .. } => {
            refused(log, "settings", file_of(at))
        }
        _ => {}
    }
}

/// Appends as much of a text as there is room for.
fn push_fitting(text: &[u8], line: &mut Line) {
    for &byte in text {
        let _ = line.try_push(byte);
    }
}

/// The text of a host and a port.
fn host_and_port(host: &Name, port: u32) -> Line {
    let mut line = Line::new();
    push_fitting(host.as_slice(), &mut line);
    let _ = line.try_push(b':');
    if line.as_slice().len() <= MOST_HOST {
        write_whole(u128::from(port), &mut line);
    }
    line
}

/// Where a backend should have been opened, if that isn't the file with the empty name.
fn back_address(kind: BackendKind, settings: &Settings) -> Line {
    match kind {
        BackendKind::Graphite => host_and_port(settings.graphite_host(), settings.graphite_port()),
        _ => Line::new(),
    }
}

/// The name of an object, and where it should have been opened; the door of admin sessions at this port.
fn object_of(part: Part, settings: &Settings, mgmt_port: u32) -> (&'static str, Line) {
    match part {
        Part::Settings => ("settings", Line::new()),
        Part::Script => ("script", Line::new()),
        Part::Packets(_) => (
            "packets",
            host_and_port(settings.address(), settings.port()),
        ),
        Part::Beat => ("beat", Line::new()),
        Part::Wire(_) => ("wire", Line::new()),
        Part::Backend(kind) => (kind.name(), back_address(kind, settings)),
        Part::Door => ("door", host_and_port(settings.mgmt_address(), mgmt_port)),
        Part::Streams => (
            "streams",
            host_and_port(settings.address(), settings.tcp_port()),
        ),
    }
}

/// Tells why a run didn't begin whose admin sessions should come at this port.
pub fn tell_unopened<L: Log>(log: &L, settings: &Settings, mgmt_port: u32, status: &Status) {
    match status {
        Status::OpenFault { part } => {
            let (object, address) = object_of(*part, settings, mgmt_port);
            refused(log, object, address.as_slice());
        }
        Status::OutOfMemory => refused_with(log, "memory", "out of memory"),
        _ => {}
    }
}

/// Tells that the system starts too few threads.
pub(crate) fn tell_too_few<L: Log>(log: &L) {
    refused_with(log, "threads", "the system starts too few");
}

/// Which backends settings name, in words.
fn backends_of(settings: &Settings) -> Line {
    let mut names = Line::new();
    for &kind in &BACKENDS {
        if names_backend(settings, kind.name().as_bytes()) {
            if !names.is_empty() {
                push_fitting(b",", &mut names);
            }
            push_fitting(kind.name().as_bytes(), &mut names);
        }
    }
    if names.is_empty() {
        push_fitting(b"none", &mut names);
    }
    names
}

/// Tells where a text of so many bytes is too long for the outlet of a backend.
fn tell_outlet<L: Log>(log: &L, settings: &Settings, backend: &str, full: u64) {
    let bytes = u64::from(settings.outlet_bytes());
    if full > bytes {
        outlets_small(log, backend, bytes, full);
    }
}

/// Tells of which backends that are used the outlets hold no text of full tables, where they have outlets.
fn tell_outlets<L: Log>(log: &L, settings: &Settings) {
    if settings.outlets() == 0 {
        return;
    }
    for &kind in &BACKENDS {
        if names_backend(settings, kind.name().as_bytes()) {
            tell_outlet(log, settings, kind.name(), full_text(kind, settings));
        }
    }
}

/// A port, where it isn't 0, which means none.
fn some_port(port: u32) -> Option<u32> {
    (port > 0).then_some(port)
}

/// Where a server or a proxy of these settings listens, with this port for admin sessions, where it isn't 0.
fn places_of(settings: &Settings, mgmt_port: u32) -> Places<'_> {
    Places {
        address: settings.address().as_slice(),
        port: settings.port(),
        tcp_port: some_port(settings.tcp_port()),
        mgmt_address: settings.mgmt_address().as_slice(),
        mgmt_port: some_port(mgmt_port),
    }
}

/// Tells that a server has all open, and whose outlets are small for it.
pub fn tell_server<L: Log>(log: &L, settings: &Settings) {
    let backends = backends_of(settings);
    server_started(
        log,
        &ServerParts {
            version: VERSION,
            places: places_of(settings, settings.mgmt_port()),
            backends: backends.as_slice(),
            shards: settings.shards(),
            rows: settings.rows(),
            entries: settings.entries(),
            receivers: settings.receivers(),
        },
    );
    tell_outlets(log, settings);
}

/// Tells that a proxy has all open.
pub fn tell_proxy<L: Log>(log: &L, settings: &Settings) {
    proxy_started(
        log,
        &ProxyParts {
            version: VERSION,
            places: places_of(settings, settings.proxy_mgmt_port()),
            nodes: settings.nodes().len() as u32,
            receivers: settings.receivers(),
        },
    );
}

/// Tells that a run has ended, with these lines of totals.
pub fn tell_end<L: Log>(log: &L, status: &Status, totals: &Line) {
    stopped(log, status.exit(), totals.as_slice());
}
