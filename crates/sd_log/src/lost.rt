//! How many datagrams the system dropped at a port.

use std::alloc::Alloc;
use std::fs::{self, Files};
use std::str;

/// The system's tables of sockets for datagrams, of both families (Linux's proc(5)).
const TABLES: [&str; 2] = ["/proc/net/udp", "/proc/net/udp6"];

/// Which field of a socket's line has its own address and port, counted from 0.
const LOCAL: usize = 1;

/// The last fields of the lines, by which a socket's line has its drops.
const DROPS: usize = 12;

/// How many datagrams the system has dropped by now at the sockets of a port, where it tells that.
pub(crate) fn dropped_at(host: &(impl Files + Alloc), port: u16) -> Option<u64> {
    let mut sum = None;
    for table in TABLES {
        if let Ok(text) = fs::read(host, table) {
            sum = Some(dropped_in(&text, port).saturating_add(sum.unwrap_or(0)));
        }
    }
    sum
}

/// The drops of all lines of a table whose sockets have this port.
fn dropped_in(table: &[u8], port: u16) -> u64 {
    let mut sum = 0u64;
    for line in table.split(|byte| *byte == b'\n') {
        if let Some(drops) = drops_of(line, port) {
            sum = sum.saturating_add(drops);
        }
    }
    sum
}

/// The drops in a socket's line, where it has this port.
fn drops_of(line: &[u8], port: u16) -> Option<u64> {
    let Ok(line) = str::from_utf8(line) else {
        return None;
    };
    let mut drops = None;
    for (place, field) in line.split_ascii_whitespace().enumerate() {
        if place == LOCAL && port_of(field)? != port {
            return None;
        }
        if place == DROPS {
            drops = field.parse::<u64>().ok();
        }
    }
    drops
}

/// The port of an address as the system's tables have it.
fn port_of(address: &str) -> Option<u16> {
    let (_, port) = address.rsplit_once(':')?;
    u16::from_str_radix(port, 16).ok()
}
