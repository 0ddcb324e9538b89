ghost use Rattle.std.specs.Prelude.{◌≡◌, ◌≤◌};
ghost use Rattle.sd_outside.specs.Turns.{raised};

use sd_outside::{Address, Name, OpenRefusal, opening_fault};
use std::io::{Error, ErrorKind};
use std::str;

/// The host and the port of an address, where it has them and the host is UTF-8.
pub fn host_of(at: &Address) -> Option<(&str, u16)> {
    let Address::Host { host, port } = at else {
        return None;
    };
    named(host, *port)
}

/// The host and the port where datagrams come, and how large a receive buffer is asked for, likewise.
pub fn datagrams_of(at: &Address) -> Option<((&str, u16), u32)> {
    let Address::Datagrams {
        host,
        port,
        receive_buffer,
    } = at
    else {
        return None;
    };
    Some((named(host, *port)?, *receive_buffer))
}

fn named(host: &Name, port: u16) -> Option<(&str, u16)> {
    match str::from_utf8(host.as_slice()) {
        Ok(host) => Some((host, port)),
        Err(_) => None,
    }
}

/// Why an opening failed, which is counted as a fault unless memory was wanted.
pub fn refusal(error: &Error, faults: &mut u64) -> OpenRefusal
    ensures failed { result ≡ OpenRefusal.Failed → faults.new ≡ raised faults.old }
    ensures stays { faults.old ≤ faults.new }
    ensures out_of_memory { result ≡ OpenRefusal.OutOfMemory → faults.new ≡ faults.old }
{
    if error.kind() == ErrorKind::OutOfMemory {
        OpenRefusal::OutOfMemory
    } else {
        opening_fault(faults)
    }
}
