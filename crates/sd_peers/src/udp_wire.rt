use crate::hosts::{Host, Hosts};
use sd_event::Link;
use sd_log::{Rounds, RunLog, address_text};
use sd_open::{host_of, refusal};
use sd_outside::{Address, Failed, Faulty, OpenRefusal, Opens, Wire, fault, opening_fault};
use sd_timing::now;
use std::io::{self, ErrorKind};
use std::net::{IpAddr, Ipv4Addr, Ipv6Addr, SocketAddr, UdpSocket};
use std::thread::Threads;

/// A UDP socket that datagrams are sent on, to one host and port. It follows the address of its name that is in use, of either
/// family. A send that answers the refusal of an earlier one is tried once more, as that one's packet was lost and this one wasn't
/// sent. It doesn't tell what was sent.
#[derive(Drop)]
pub struct UdpWire<'a, X> {
    host: &'a HostRuntime,
    threads: &'a X,
    hosts: &'a Hosts,
    log: &'a RunLog<'a>,
    rounds: Rounds,
    target: Option<Target<'a>>,
    opened_at: Option<Address>,
    faults: u64,
}

/// Where a wire sends.
#[derive(Drop)]
struct Target<'a> {
    name: &'a Host,
    port: u16,
    ip: IpAddr,
    socket: UdpSocket,
    changes: u64,
}

/// A socket that is connected to an address. No datagram is sent by that.
fn socket_to(host: &HostRuntime, ip: IpAddr, port: u16) -> io::Result<UdpSocket> {
    let any = match ip {
        IpAddr::V4(_) => IpAddr::V4(Ipv4Addr::UNSPECIFIED),
        IpAddr::V6(_) => IpAddr::V6(Ipv6Addr::UNSPECIFIED),
    };
    let socket = UdpSocket::bind(host, SocketAddr::new(any, 0))?;
    socket.connect(SocketAddr::new(ip, port))?;
    Ok(socket)
}

impl<'a> Target<'a> {
    /// One at the address of a name that is in use.
    ///
    /// # Errors
    ///
    /// `NotFound` where none is known, and those of the system.
    fn open(
        threads: &impl Threads,
        host: &HostRuntime,
        name: &'a Host,
        port: u16,
    ) -> io::Result<Target<'a>> {
        let changes = name.changes();
        let ip = name.first_address(threads, host)?;
        Ok(Target {
            name,
            port,
            ip,
            socket: socket_to(host, ip, port)?,
            changes,
        })
    }

    /// Goes over to the address that is in use, where that is another one.
    fn follow(&mut self, host: &HostRuntime) {
        let changes = self.name.changes();
        if changes == self.changes {
            return;
        }
        let Some(ip) = self.name.address() else {
            return;
        };
        if ip != self.ip {
            let Ok(socket) = socket_to(host, ip, self.port) else {
                return;
            };
            self.socket = socket;
            self.ip = ip;
        }
        self.changes = changes;
    }

    /// Sends a packet, whole. One that answers the refusal of an earlier one is sent once more, to the next address where one is known.
    ///
    /// # Errors
    ///
    /// `ConnectionRefused` where that is refused at once, `WriteZero` where it wasn't sent whole, and those of the system.
    fn send(&mut self, host: &HostRuntime, packet: &[u8]) -> io::Result<()> {
        self.follow(host);
        match sent_whole(&self.socket, packet) {
            Err(e) if e.kind() == ErrorKind::ConnectionRefused => {
                self.name.fail(self.ip);
                self.follow(host);
                self.send_once_more(packet)
            }
            outcome => outcome,
        }
    }

    /// Sends a packet to a target that has refused one. A target on this machine that refuses this one, too, has said so by now.
    fn send_once_more(&self, packet: &[u8]) -> io::Result<()> {
        sent_whole(&self.socket, packet)?;
        match self.socket.take_error()? {
            Some(e) => {
                self.name.fail(self.ip);
                Err(e)
            }
            None => Ok(()),
        }
    }
}

fn sent_whole(socket: &UdpSocket, packet: &[u8]) -> io::Result<()> {
    if socket.send(packet)? == packet.len() {
        Ok(())
    } else {
        Err(io::Error::from(ErrorKind::WriteZero))
    }
}

impl<'a, X> UdpWire<'a, X> {
    ghost use Rattle.std.specs.Prelude.{◌≡◌};
    ghost use Rattle.sd_model_outside.specs.Outside.{Unknown, fresh};

    /// A wire that is opened later.
    pub fn new(
        host: &'a HostRuntime,
        threads: &'a X,
        hosts: &'a Hosts,
        log: &'a RunLog<'a>,
    ) -> UdpWire<'a, X>
        ensures { ⟦<UdpWire<'a, X> as Faulty>⟧.seen result ≡ fresh Unknown }
    {
        UdpWire {
            host,
            threads,
            hosts,
            log,
            rounds: Rounds::of(Link::Target),
            target: None,
            opened_at: None,
            faults: 0,
        }
    }
}

impl<'a, X: Threads> UdpWire<'a, X> {
    /// # Errors
    ///
    /// `InvalidInput` where it isn't the address of a host, `StorageFull` where there are too many names, and those of opening.
    fn target_at(&self, at: &Address) -> io::Result<Target<'a>> {
        match at {
            Address::Host { host, port } if host_of(at).is_some() => {
                let Some(name) = self.hosts.at(host) else {
                    return Err(io::Error::from(ErrorKind::StorageFull));
                };
                Target::open(self.threads, self.host, name, *port)
            }
            _ => Err(io::Error::from(ErrorKind::InvalidInput)),
        }
    }

    /// Looks up the name of its target where that is due. This holds up no send.
    fn keep_up(&self) {
        let Some(target) = &self.target else {
            return;
        };
        if let Ok(moment) = now(self.host) {
            target.name.keep_up(self.threads, self.host, moment);
        }
    }
}

impl<'a, X> UdpWire<'a, X> {
    ghost use Rattle.std.specs.Prelude.{◌≡◌};

    /// Tells the log that a datagram couldn't be sent.
    fn tell_failed(&mut self, error: &io::Error)
        ensures faults { self.new.faults ≡ self.old.faults }
        ensures opened_at { self.new.opened_at ≡ self.old.opened_at }
    {
        let address = address_text(&self.opened_at);
        self.rounds.begin();
        self.rounds.fail(self.log, address.as_slice(), error);
    }

    /// Tells the log that a datagram was sent, where the one before it wasn't.
    fn tell_sent(&mut self)
        ensures faults { self.new.faults ≡ self.old.faults }
        ensures opened_at { self.new.opened_at ≡ self.old.opened_at }
    {
        if self.rounds.is_down() {
            let address = address_text(&self.opened_at);
            self.rounds.begin();
            self.rounds.end(self.log, address.as_slice());
        }
    }
}

impl<'a, X> Faulty for UdpWire<'a, X> {
    ghost use Rattle.std.specs.Prelude.{min};
    ghost use Rattle.std.proofs.Common.{arith};
    ghost use Rattle.sd_model_outside.specs.Outside.{Unknown, last_count, object_of};
    ghost use Rattle.sd_outside.specs.Places.{last_place};

    ghost seen = { λ s. object_of Unknown (min s.faults last_count) (last_place s.opened_at) };

    ghost faults_fit = { λ s. omega arith };
}

impl<'a, X: Threads> Opens for UdpWire<'a, X> {
    fn open_at(&mut self, at: &Address) -> Result<(), OpenRefusal> {
        match self.target_at(at) {
            Ok(target) => {
                self.target = Some(target);
                self.opened_at = Some(at.copied());
                Ok(())
            }
            Err(e) => {
                self.log.note_reason(&e);
                Err(refusal(&e, &mut self.faults))
            }
        }
    }
}

impl<'a, X: Threads> Wire for UdpWire<'a, X> {
    fn send(&mut self, packet: &[u8]) -> Result<(), Failed> {
        self.keep_up();
        let Some(target) = &mut self.target else {
            return Err(fault(&mut self.faults));
        };
        match target.send(self.host, packet) {
            Ok(()) => {
                self.tell_sent();
                Ok(())
            }
            Err(e) => {
                self.tell_failed(&e);
                Err(fault(&mut self.faults))
            }
        }
    }
}
