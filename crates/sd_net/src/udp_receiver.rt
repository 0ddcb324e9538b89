ghost use Rattle.std.specs.Prelude.{◌≤◌, length, IfOk};

use crate::draining::has_drained;
use sd_edge::Backoff;
use sd_log::RunLog;
use sd_open::{Sockets, datagrams_of, refusal};
use sd_outside::{Address, Datagrams, Faulty, Next, OpenRefusal, Opens, fault, opening_fault};
use sd_socket::receive_buffer;
use sd_timing::{Stop, take_turn};
use std::fs::Files;
use std::io::{self, ErrorKind};
use std::net::{Net, UdpSocket};
use std::time::{Clock, Duration};

/// How long a receiver waits for a datagram before it says that none came for now, in milliseconds: at first, and at most once none
/// has come for a while.
const WAIT_MS: (u64, u64) = (100, 2_000);

/// How long a receiver goes on once it has seen that it is to stop, where datagrams don't cease to come, in seconds.
const DRAIN: u64 = 2;

/// At how many turns a receiver looks for the stop file where datagrams don't cease to come.
const TURNS_TO_LOOK: u64 = 64;

/// How many bytes a datagram has at most.
const MOST_DATAGRAM: usize = 65_527;

/// A receiver of the datagrams that come to a UDP socket of its own. Several receivers have their sockets at one address, and the
/// system gives what one client's socket sends to one of them, in order. It looks for the stop file where none came within its
/// time limit, and at each 64th turn, unless a beat does. Once it is to stop, it goes on until none came within that limit, or for
/// two seconds. The limit is the longer, the longer none came.
/// Where its socket fails it sets `stop`, so that a server doesn't go on without it.
///
/// All parts of a program are opened before a receiver is first asked. Where a socket that was handed over is still nobody's by
/// then, because there are fewer receivers or the settings have another port, what comes to it would wait unread. So the
/// receiver fails, and sets `stop`.
#[derive(Drop)]
pub struct UdpReceiver<'a, R> {
    host: &'a R,
    sockets: &'a Sockets,
    stop: &'a Stop,
    log: &'a RunLog<'a>,
    socket: Option<UdpSocket>,
    wait: Backoff,
    saw_stop: Option<Duration>,
    opened_at: Option<Address>,
    faults: u64,
    turns: u64,
}

impl<'a, R> UdpReceiver<'a, R> {
    ghost use Rattle.std.specs.Prelude.{◌≡◌};
    ghost use Rattle.sd_model_outside.specs.Outside.{Unknown, fresh};

    /// A receiver that is opened later, beside the others that share these sockets. It is to stop once `stop` is set.
    pub fn new(
        host: &'a R,
        sockets: &'a Sockets,
        stop: &'a Stop,
        log: &'a RunLog<'a>,
    ) -> UdpReceiver<'a, R>
        ensures { ⟦<UdpReceiver<'a, R> as Faulty>⟧.seen result ≡ fresh Unknown }
    {
        UdpReceiver {
            host,
            sockets,
            stop,
            log,
            socket: None,
            wait: Backoff::between(WAIT_MS.0, WAIT_MS.1),
            saw_stop: None,
            opened_at: None,
            faults: 0,
            turns: 0,
        }
    }

    /// How often it failed.
    pub fn faults(&self) -> u64
        ensures { result ≡ (⟦<UdpReceiver<'a, R> as Faulty>⟧.seen self.now).faults }
    {
        self.faults
    }

    /// The port that its socket is bound at, where it is open.
    pub fn port(&self) -> Option<u16> {
        match self.socket.as_ref()?.local_addr() {
            Ok(addr) => Some(addr.port()),
            Err(_) => None,
        }
    }

    /// Tells the log at which port datagrams come.
    fn note_port(&self) {
        if let Some(port) = self.port() {
            self.log.note_port(port);
        }
    }

    /// How many bytes its socket's receive buffer has by the system's count, where it is open.
    pub fn receive_buffer(&self) -> Option<u32> {
        receive_buffer(self.socket.as_ref()?).ok()
    }
}

impl<'a, R: Net + Clock + Files> UdpReceiver<'a, R> {
    /// Its socket, whose calls wait for a limited time.
    fn socket_at(&self, place: (&str, u16), receive_buffer: u32) -> io::Result<UdpSocket> {
        let socket = self.sockets.datagrams_at(self.host, place, receive_buffer)?;
        socket.set_read_timeout(Some(Duration::from_millis(self.wait.least)))?;
        Ok(socket)
    }
}

/// Has a socket's calls wait for so long from now on, where that is another limit than before.
fn set_wait(socket: &UdpSocket, before: u64, wait: u64) {
    if before != wait {
        // where the system refuses it, the limit from before holds
        let _ = socket.set_read_timeout(Some(Duration::from_millis(wait)));
    }
}

/// Waits for a datagram, and puts its first bytes, so many at most, at the start of the buffer.
fn receive(socket: &UdpSocket, buf: &mut [u8], most: usize) -> io::Result<usize>
    requires { most ≤ length buf.old }
    ensures { IfOk result (λ n. n ≤ most) }
{
    socket.recv(&mut buf[..most])
}

impl<'a, R> Faulty for UdpReceiver<'a, R> {
    ghost use Rattle.std.specs.Prelude.{min, false, None};
    ghost use Rattle.std.proofs.Common.{arith};
    ghost use Rattle.sd_model_outside.specs.Outside.{Object, Unknown, last_count};
    ghost use Rattle.sd_outside.specs.Places.{last_place};

    ghost seen = { λ s. record {
      content = Unknown;
      faults = min s.faults last_count;
      opened_at = last_place s.opened_at;
      turns = min s.turns last_count;
      is_out = false;
      interval = None;
    } };

    ghost faults_fit = { λ s. omega arith };
}

impl<'a, R: Net + Clock + Files> Opens for UdpReceiver<'a, R> {
    fn open_at(&mut self, at: &Address) -> Result<(), OpenRefusal> {
        let Some((place, receive_buffer)) = datagrams_of(at) else {
            return Err(opening_fault(&mut self.faults));
        };
        match self.socket_at(place, receive_buffer) {
            Ok(socket) => {
                self.socket = Some(socket);
                self.opened_at = Some(at.copied());
                self.note_port();
                Ok(())
            }
            Err(e) => {
                self.log.note_reason(&e);
                Err(refusal(&e, &mut self.faults))
            }
        }
    }
}

impl<'a, R: Net + Clock + Files> Datagrams for UdpReceiver<'a, R> {
    ghost use Rattle.std.proofs.Common.{arith};

    fn next(&mut self, buf: &mut [u8]) -> Next {
        if self.turns % TURNS_TO_LOOK == 0 {
            self.stop.look_unwatched(self.host);
        }
        if has_drained(self.host, self.stop, &mut self.saw_stop, DRAIN) {
            return Next::End;
        }
        if self.turns == 0 && self.sockets.has_untaken() {
            self.stop.set();
            fault(&mut self.faults);
            return Next::Failed;
        }
        let Some(socket) = &self.socket else {
            fault(&mut self.faults);
            return Next::Failed;
        };
        match receive(socket, buf, MOST_DATAGRAM) {
            Ok(len) => {
                let before = self.wait.wait;
                self.wait.reset();
                set_wait(socket, before, self.wait.wait);
                take_turn(&mut self.turns);
                Next::Packet { len }
            }
            Err(e) if e.kind() == ErrorKind::WouldBlock => {
                if self.stop.look_unwatched(self.host) {
                    return Next::End;
                }
                let before = self.wait.wait;
                self.wait.grow();
                set_wait(socket, before, self.wait.wait);
                take_turn(&mut self.turns);
                Next::Idle
            }
            Err(e) if e.kind() == ErrorKind::Interrupted => {
                take_turn(&mut self.turns);
                Next::Idle
            }
            Err(_) => {
                self.stop.set();
                fault(&mut self.faults);
                Next::Failed
            }
        }
    }

    ghost turns_fit = { λ s. omega arith };
}
