use crate::resolved::Resolved;
use sd_outside::Name;
use sd_timing::now;
use std::alloc::{AllocError, Global};
use std::io::{self, ErrorKind};
use std::net::IpAddr;
use std::sync::atomic::{AtomicU64, Ordering};
use std::sync::{Mutex, OnceLock};
use std::thread::{Threads, sleep};
use std::time::Duration;

/// How many names there may be: as many as a proxy has nodes.
const MOST_NAMES: usize = 64;

/// How long an opening waits for the addresses of a name, in milliseconds.
const OPEN_MS: u64 = 5_000;

/// How long is slept between two looks whether a look-up has ended, in milliseconds.
const NAP_MS: u64 = 5;

/// How long behind a look whether a name is to be looked up the next one is, in milliseconds.
const LOOK_MS: u64 = 500;

/// The names that wires send to and that a probe asks, each of them once, in a room that is taken once. So whoever sends to a name
/// and whoever asks it go by one address.
#[derive(Drop)]
pub struct Hosts {
    slots: Vec<OnceLock<Host>>,
}

/// A name, and the address of it that is in use. What one part sees of that address holds for all.
#[derive(Drop)]
pub(crate) struct Host {
    name: Name,
    resolved: Mutex<Resolved>,
    changes: AtomicU64,
    look_at: AtomicU64,
}

impl Hosts {
    /// No names.
    ///
    /// # Errors
    ///
    /// Where no memory is left for the room.
    pub fn open(alloc: Global) -> Result<Hosts, AllocError> {
        let mut slots = Vec::with_capacity(alloc, MOST_NAMES)?;
        for _ in 0..MOST_NAMES {
            slots.push(OnceLock::new())?;
        }
        Ok(Hosts { slots })
    }

    /// That of a name, which may be a new one, where there is room.
    pub(crate) fn at(&self, name: &Name) -> Option<&Host> {
        for slot in &self.slots {
            if slot.get().is_none() {
                // where another part has put a name there just now, that one is looked at
                let _ = slot.try_set(Host::new(name.clone().unwrap()));
            }
            match slot.get() {
                Some(host) if host.name == *name => return Some(host),
                _ => {}
            }
        }
        None
    }
}

impl Host {
    fn new(name: Name) -> Host {
        Host {
            name: name.clone().unwrap(),
            resolved: Mutex::new(Resolved::new(name)),
            changes: AtomicU64::new(0),
            look_at: AtomicU64::new(0),
        }
    }

    /// How often another address came into use. Where that stays, so does the address.
    pub(crate) fn changes(&self) -> u64 {
        self.changes.load(Ordering::SeqCst)
    }

    /// The address in use, where one is known and no other part is at it just now.
    pub(crate) fn address(&self) -> Option<IpAddr> {
        self.resolved.try_lock()?.next()
    }

    /// How many addresses are known.
    pub(crate) fn count(&self) -> usize {
        match self.resolved.try_lock() {
            Some(resolved) => resolved.count(),
            None => 1,
        }
    }

    /// This address failed. Where it is in use still, the next one is from now on.
    pub(crate) fn fail(&self, ip: IpAddr) {
        let Some(mut resolved) = self.resolved.try_lock() else {
            return;
        };
        if resolved.next() == Some(ip) {
            resolved.fail();
            self.note_change(Some(ip), resolved.next());
        }
        self.look_at.store(0, Ordering::SeqCst);
    }

    /// This address served.
    pub(crate) fn serve(&self, ip: IpAddr) {
        if let Some(mut resolved) = self.resolved.try_lock() {
            if resolved.next() == Some(ip) {
                resolved.serve();
            }
        }
    }

    /// Takes what a look-up has found, and begins one where that is due at this moment.
    pub(crate) fn keep_up(&self, threads: &impl Threads, host: &HostRuntime, now: u64) {
        if now < self.look_at.load(Ordering::SeqCst) {
            return;
        }
        let Some(mut resolved) = self.resolved.try_lock() else {
            return;
        };
        let before = resolved.next();
        resolved.take();
        resolved.look_up(threads, host, now);
        self.note_change(before, resolved.next());
        self.look_at
            .store(now.saturating_add(LOOK_MS), Ordering::SeqCst);
    }

    fn note_change(&self, before: Option<IpAddr>, after: Option<IpAddr>) {
        if before != after {
            self.changes.fetch_add(1, Ordering::SeqCst);
        }
    }

    /// The address in use, which is waited for where none is known.
    ///
    /// # Errors
    ///
    /// `NotFound` where none came to be known in some seconds, and those of the clock.
    pub(crate) fn first_address(
        &self,
        threads: &impl Threads,
        host: &HostRuntime,
    ) -> io::Result<IpAddr> {
        let began = now(host)?;
        for _ in 0..u64::MAX {
            let moment = now(host)?;
            self.look_at.store(0, Ordering::SeqCst);
            self.keep_up(threads, host, moment);
            if let Some(ip) = self.address() {
                return Ok(ip);
            }
            if moment.saturating_sub(began) >= OPEN_MS || !self.is_looked_up() {
                break;
            }
            sleep(host, Duration::from_millis(NAP_MS));
        }
        Err(io::Error::from(ErrorKind::NotFound))
    }

    fn is_looked_up(&self) -> bool {
        match self.resolved.try_lock() {
            Some(resolved) => resolved.is_looked_up(),
            None => true,
        }
    }
}
