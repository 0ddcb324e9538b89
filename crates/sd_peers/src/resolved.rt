//! A name and its addresses.
use sd_edge::AddressTurns;
use sd_outside::Name;
use std::alloc::Global;
use std::net::{IpAddr, Ipv4Addr, Net, ToSocketAddrs};
use std::str;
use std::sync::{Arc, OnceLock};
use std::thread::{self, Threads};

/// How many addresses of a name are tried.
const MOST_ADDRESSES: usize = 16;

/// Addresses of a name, in the order in which the system has them.
#[derive(Clone, Copy)]
struct Addresses {
    list: [IpAddr; MOST_ADDRESSES],
    count: usize,
}

impl Addresses {
    /// No address.
    const NONE: Addresses = Addresses {
        list: [IpAddr::V4(Ipv4Addr::UNSPECIFIED); MOST_ADDRESSES],
        count: 0,
    };

    /// Those of a name, and none where they can't be found. This may wait for name servers.
    fn of(net: &impl Net, name: &Name) -> Addresses {
        let mut found = Addresses::NONE;
        let Ok(host) = str::from_utf8(name.as_slice()) else {
            return found;
        };
        let Ok(all) = (host, 0u16).to_socket_addrs(net) else {
            return found;
        };
        for address in all {
            found.add(address.ip());
        }
        found
    }

    /// Adds one that isn't there yet, where there is room.
    fn add(&mut self, ip: IpAddr) {
        if self.place_of(ip).is_some() {
            return;
        }
        if let Some(slot) = self.list.get_mut(self.count) {
            *slot = ip;
            self.count += 1;
        }
    }

    fn get(&self, place: usize) -> Option<IpAddr> {
        if place < self.count {
            self.list.get(place).copied()
        } else {
            None
        }
    }

    /// Whether it has an address that the others lack.
    fn has_more_than(&self, others: &Addresses) -> bool {
        (0..self.count).any(|place| match self.get(place) {
            Some(ip) => others.place_of(ip).is_none(),
            None => false,
        })
    }

    fn place_of(&self, ip: IpAddr) -> Option<usize> {
        for place in 0..self.count {
            if self.get(place) == Some(ip) {
                return Some(place);
            }
        }
        None
    }
}

/// What a look-up leaves once it has ended.
type LookUp = Arc<OnceLock<Addresses>, Global>;

/// A name, those of its addresses that are known, and a look-up that is under way. A look-up holds up nobody: a thread of its own
/// waits for the name servers, and what it found is there once somebody asks for it. An address in the place of a name is its own.
#[derive(Drop)]
pub(crate) struct Resolved {
    name: Name,
    known: Addresses,
    turns: AddressTurns,
    look_up: Option<LookUp>,
}

impl Resolved {
    /// A name of which no address is known.
    pub(crate) fn new(name: Name) -> Resolved {
        Resolved {
            name,
            known: Addresses::NONE,
            turns: AddressTurns::none(),
            look_up: None,
        }
    }

    /// The address that is tried next.
    pub(crate) fn next(&self) -> Option<IpAddr> {
        self.known.get(self.turns.next()?)
    }

    /// The address that stands in the name's place, where one does.
    fn own_address(&self) -> Option<IpAddr> {
        str::from_utf8(self.name.as_slice()).ok()?.parse().ok()
    }

    /// How many addresses are known.
    pub(crate) fn count(&self) -> usize {
        self.known.count
    }

    /// The address that was tried failed.
    pub(crate) fn fail(&mut self) {
        self.turns.fail();
    }

    /// The address that was tried served.
    pub(crate) fn serve(&mut self) {
        self.turns.serve();
    }

    /// Whether a look-up is under way.
    pub(crate) fn is_looked_up(&self) -> bool {
        self.look_up.is_some()
    }

    /// Takes what a look-up has found, if one has ended, and answers whether that is an address that wasn't known. Where it found
    /// none, what was known stays.
    pub(crate) fn take(&mut self) -> bool {
        let Some(look_up) = &self.look_up else {
            return false;
        };
        let Some(found) = look_up.get() else {
            return false;
        };
        let found = *found;
        self.look_up = None;
        self.learn(found)
    }

    fn learn(&mut self, found: Addresses) -> bool {
        if found.count == 0 {
            return false;
        }
        let kept = match self.next() {
            Some(ip) => found.place_of(ip),
            None => None,
        };
        let is_news = found.has_more_than(&self.known);
        self.known = found;
        self.turns.learn(found.count, kept);
        is_news
    }

    /// Begins to look the name up, where that is due at this moment and none is under way. Where no thread can be made, the caller's
    /// own does it.
    pub(crate) fn look_up(&mut self, threads: &impl Threads, host: &HostRuntime, now: u64) {
        if self.look_up.is_some() || !self.turns.is_due(now) {
            return;
        }
        self.turns.ask(now);
        if let Some(ip) = self.own_address() {
            let mut own = Addresses::NONE;
            own.add(ip);
            self.learn(own);
            return;
        }
        let Ok(mine) = Arc::new(host.alloc(), OnceLock::new()) else {
            return;
        };
        let Ok(theirs) = Arc::try_clone(&mine) else {
            return;
        };
        let (net, name) = (*host, self.name.clone().unwrap());
        let started = thread::spawn(threads, move || {
            let _ = theirs.try_set(Addresses::of(&net, &name));
        });
        match started {
            Ok(_) => self.look_up = Some(mine),
            Err(_) => {
                let name = self.name.clone().unwrap();
                self.learn(Addresses::of(host, &name));
            }
        }
    }
}
