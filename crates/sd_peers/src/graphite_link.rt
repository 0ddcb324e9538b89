ghost use Rattle.std.specs.Prelude.{◌≡◌, OnErr, OnOk};
ghost use Rattle.sd_outside.specs.Turns.{raised};

use crate::resolved::Resolved;
use crate::text_room::TextRoom;
use sd_event::Link;
use sd_log::{Rounds, RunLog, address_text};
use sd_open::host_of;
use sd_outside::{
    Address, Backend, Failed, Faulty, OpenRefusal, Opens, Sink, fault, opening_fault,
};
use sd_timing::{Pace, Stop, Waiting, now, slice};
use std::io::{self, ErrorKind, Read, Write};
use std::net::{Shutdown, SocketAddr, TcpStream};
use std::thread::{Threads, sleep};
use std::time::Duration;

/// How long one address is waited for at most, in milliseconds.
const CONNECT_MS: u64 = 2_000;

/// How long Graphite may take to end its side once it was told that a text is whole, in milliseconds.
const END_MS: u64 = 2_000;

/// How long is slept between two looks whether a look-up has ended, in milliseconds.
const NAP_MS: u64 = 5;

/// A link to Graphite over TCP, which is connected anew for each round. A text is sent in large pieces, and is delivered once
/// Graphite has ended its side behind the link's own end. All of a round, from looking up the name to that end, has one limit: four
/// fifths of the interval between flushes, and behind a stop what is left of it. A call that fails closes the connection.
#[derive(Drop)]
pub struct GraphiteLink<'a, X> {
    host: &'a HostRuntime,
    threads: &'a X,
    stop: &'a Stop,
    pace: &'a Pace,
    log: &'a RunLog<'a>,
    rounds: Rounds,
    graphite: Option<Graphite>,
    text: TextRoom,
    round: Option<Round<'a>>,
    opened_at: Option<Address>,
    faults: u64,
}

/// Where Graphite is.
#[derive(Drop)]
struct Graphite {
    name: Resolved,
    port: u16,
}

/// The connection of a round, and how long it may take.
#[derive(Drop)]
struct Round<'a> {
    stream: TcpStream,
    waiting: Waiting<'a, HostRuntime>,
}

impl<'a, X> GraphiteLink<'a, X> {
    ghost use Rattle.std.specs.Prelude.{◌≡◌};
    ghost use Rattle.sd_model_outside.specs.Outside.{Unknown, fresh};

    /// A link that is opened later.
    pub fn new(
        host: &'a HostRuntime,
        threads: &'a X,
        stop: &'a Stop,
        pace: &'a Pace,
        log: &'a RunLog<'a>,
    ) -> GraphiteLink<'a, X>
        ensures { ⟦<GraphiteLink<'a, X> as Faulty>⟧.seen result ≡ fresh Unknown }
    {
        GraphiteLink {
            host,
            threads,
            stop,
            pace,
            log,
            rounds: Rounds::of(Link::Graphite),
            graphite: None,
            text: TextRoom::none(host.alloc()),
            round: None,
            opened_at: None,
            faults: 0,
        }
    }

    /// How often it failed.
    pub fn faults(&self) -> u64
        ensures { result ≡ (⟦<GraphiteLink<'a, X> as Faulty>⟧.seen self.now).faults }
    {
        self.faults
    }
}

impl Graphite {
    /// The one at an address, where that is a host's.
    fn at(address: &Address) -> Option<Graphite> {
        host_of(address)?;
        match address {
            Address::Host { host, port } => Some(Graphite {
                name: Resolved::new(host.clone().unwrap()),
                port: *port,
            }),
            Address::File(_) | Address::Datagrams { .. } => None,
        }
    }

    /// A connection to the first of the known addresses that takes one, each of which has its share of the time that is left.
    ///
    /// # Errors
    ///
    /// `TimedOut`, `NotFound` where none is known, that of the last one where none takes a connection, and those of the clock.
    fn connect(
        &mut self,
        host: &HostRuntime,
        waiting: &Waiting<'_, HostRuntime>,
    ) -> io::Result<TcpStream> {
        let count = self.name.count();
        let mut fault = ErrorKind::NotFound;
        for tried in 0..count {
            let Some(ip) = self.name.next() else {
                break;
            };
            let share = waiting.share(count - tried)?.min(CONNECT_MS);
            let at = SocketAddr::new(ip, self.port);
            match TcpStream::connect_timeout(host, &at, Duration::from_millis(share)) {
                Ok(stream) => return Ok(stream),
                Err(e) => {
                    fault = e.kind();
                    self.name.fail();
                }
            }
        }
        Err(io::Error::from(fault))
    }

    /// Waits for a look-up that is under way, and answers whether it found an address that wasn't known.
    ///
    /// # Errors
    ///
    /// `TimedOut`, and those of the clock.
    fn wait_for_name(
        &mut self,
        host: &HostRuntime,
        waiting: &Waiting<'_, HostRuntime>,
    ) -> io::Result<bool> {
        for _ in 0..u64::MAX {
            if !self.name.is_looked_up() {
                break;
            }
            if self.name.take() {
                return Ok(true);
            }
            let left = waiting.left()?;
            sleep(host, Duration::from_millis(left.min(NAP_MS)));
        }
        Ok(false)
    }

    /// A connection for a round. The name is looked up where that is due, and is waited for only where no known address takes a
    /// connection.
    ///
    /// # Errors
    ///
    /// Those of connecting, and `TimedOut`.
    fn reach<X: Threads>(
        &mut self,
        host: &HostRuntime,
        threads: &X,
        waiting: &Waiting<'_, HostRuntime>,
    ) -> io::Result<TcpStream> {
        self.name.take();
        self.name.look_up(threads, host, now(host)?);
        match self.connect(host, waiting) {
            Ok(stream) => Ok(stream),
            Err(e) => {
                self.name.look_up(threads, host, now(host)?);
                if self.wait_for_name(host, waiting)? {
                    self.connect(host, waiting)
                } else {
                    Err(e)
                }
            }
        }
    }
}

impl Round<'_> {
    /// Sends what waits of a text.
    ///
    /// # Errors
    ///
    /// `TimedOut`, `WriteZero`, and those of the connection and the clock.
    fn send(&mut self, text: &mut TextRoom) -> io::Result<()> {
        for _ in 0..u64::MAX {
            if text.rest().is_empty() {
                break;
            }
            let left = self.waiting.left()?;
            self.stream.set_write_timeout(Some(slice(left)))?;
            match self.stream.write(text.rest()) {
                Ok(0) => return Err(io::Error::from(ErrorKind::WriteZero)),
                Ok(count) => text.note_sent(count),
                Err(e) if is_unfinished(&e) => {}
                Err(e) => return Err(e),
            }
        }
        text.clear();
        Ok(())
    }

    /// Ends the text, and waits until Graphite has ended its side. What it says before is dropped.
    ///
    /// # Errors
    ///
    /// `UnexpectedEof` where it had ended its side before, `TimedOut`, and those of the connection, such as a reset, and of the clock.
    fn end(&mut self) -> io::Result<()> {
        if self.has_ended()? {
            return Err(io::Error::from(ErrorKind::UnexpectedEof));
        }
        self.stream.shutdown(Shutdown::Write)?;
        let ends = self.waiting.since_now(END_MS)?;
        let mut said = [0u8; 512];
        for _ in 0..u64::MAX {
            let left = self.waiting.left_until(ends)?;
            self.stream.set_read_timeout(Some(slice(left)))?;
            match self.stream.read(&mut said) {
                Ok(0) => break,
                Ok(_) => {}
                Err(e) if is_unfinished(&e) => {}
                Err(e) => return Err(e),
            }
        }
        // an end hides a reset that came behind it
        match self.stream.take_error()? {
            Some(e) => Err(e),
            None => Ok(()),
        }
    }

    /// Whether Graphite has ended its side by now.
    ///
    /// # Errors
    ///
    /// Those of the connection.
    fn has_ended(&mut self) -> io::Result<bool> {
        self.stream.set_nonblocking(true)?;
        let peeked = self.stream.peek(&mut [0u8; 1]);
        self.stream.set_nonblocking(false)?;
        match peeked {
            Ok(count) => Ok(count == 0),
            Err(e) if is_unfinished(&e) => Ok(false),
            Err(e) => Err(e),
        }
    }
}

/// Whether a call of the system is to be made once more.
fn is_unfinished(error: &io::Error) -> bool {
    matches!(error.kind(), ErrorKind::WouldBlock | ErrorKind::Interrupted)
}

impl<'a, X: Threads> GraphiteLink<'a, X> {
    /// Connects for a round.
    fn begun(&mut self) -> io::Result<Round<'a>>
        ensures faults { self.new.faults ≡ self.old.faults }
        ensures opened_at { self.new.opened_at ≡ self.old.opened_at }
    {
        let Some(graphite) = &mut self.graphite else {
            return Err(io::Error::from(ErrorKind::InvalidInput));
        };
        let waiting = Waiting::begin(self.host, self.stop, self.pace.delivery_limit())?;
        let stream = graphite.reach(self.host, self.threads, &waiting)?;
        Ok(Round { stream, waiting })
    }
}

impl<'a, X> GraphiteLink<'a, X> {
    /// Notes whether the address of a round served, and counts a fault where it didn't.
    fn noted(&mut self, outcome: io::Result<()>) -> Result<(), Failed>
        ensures ok { OnOk result (self.new.faults ≡ self.old.faults) }
        ensures failed { OnErr result (self.new.faults ≡ raised self.old.faults) }
        ensures opened_at { self.new.opened_at ≡ self.old.opened_at }
    {
        if let Some(graphite) = &mut self.graphite {
            match &outcome {
                Ok(()) => graphite.name.serve(),
                Err(_) => graphite.name.fail(),
            }
        }
        match outcome {
            Ok(()) => Ok(()),
            Err(e) => {
                self.tell_failed(&e);
                Err(fault(&mut self.faults))
            }
        }
    }

    /// Tells the log that a round failed.
    fn tell_failed(&mut self, error: &io::Error)
        ensures faults { self.new.faults ≡ self.old.faults }
        ensures opened_at { self.new.opened_at ≡ self.old.opened_at }
    {
        let address = address_text(&self.opened_at);
        self.rounds.fail(self.log, address.as_slice(), error);
    }

    /// Tells the log that a round ended.
    fn tell_ended(&mut self)
        ensures faults { self.new.faults ≡ self.old.faults }
        ensures opened_at { self.new.opened_at ≡ self.old.opened_at }
    {
        let address = address_text(&self.opened_at);
        self.rounds.end(self.log, address.as_slice());
    }
}

impl<'a, X> Faulty for GraphiteLink<'a, X> {
    ghost use Rattle.std.specs.Prelude.{min};
    ghost use Rattle.std.proofs.Common.{arith};
    ghost use Rattle.sd_model_outside.specs.Outside.{Unknown, last_count, object_of};
    ghost use Rattle.sd_outside.specs.Places.{last_place};

    ghost seen = { λ s. object_of Unknown (min s.faults last_count) (last_place s.opened_at) };

    ghost faults_fit = { λ s. omega arith };
}

impl<'a, X: Threads> Opens for GraphiteLink<'a, X> {
    /// Keeps the address, and begins to look up its host. Nothing is connected by that, and a name that can't be looked up by now may
    /// be known at a round.
    fn open_at(&mut self, at: &Address) -> Result<(), OpenRefusal> {
        let Some(mut graphite) = Graphite::at(at) else {
            return Err(opening_fault(&mut self.faults));
        };
        let Ok(text) = TextRoom::open(self.host.alloc()) else {
            return Err(OpenRefusal::OutOfMemory);
        };
        if let Ok(moment) = now(self.host) {
            graphite.name.look_up(self.threads, self.host, moment);
        }
        self.text = text;
        self.graphite = Some(graphite);
        self.opened_at = Some(at.copied());
        Ok(())
    }
}

impl<'a, X: Threads> Sink for GraphiteLink<'a, X> {
    fn write(&mut self, bytes: &[u8]) -> Result<usize, Failed> {
        let Some(mut round) = self.round.take() else {
            return Err(fault(&mut self.faults));
        };
        if self.text.is_full() {
            let sent = round.send(&mut self.text);
            self.noted(sent)?;
        }
        let count = self.text.take(bytes);
        if count == 0 {
            return Err(fault(&mut self.faults));
        }
        self.round = Some(round);
        Ok(count)
    }

    ghost number_fits = { λ s. tt };
}

impl<'a, X: Threads> Backend for GraphiteLink<'a, X> {
    fn begin(&mut self) -> Result<(), Failed> {
        self.round = None;
        self.text.clear();
        self.rounds.begin();
        match self.begun() {
            Ok(round) => {
                self.round = Some(round);
                Ok(())
            }
            Err(e) => {
                self.tell_failed(&e);
                Err(fault(&mut self.faults))
            }
        }
    }

    fn finish(&mut self) -> Result<(), Failed> {
        let Some(mut round) = self.round.take() else {
            return Ok(());
        };
        let outcome = match round.send(&mut self.text) {
            Ok(()) => round.end(),
            Err(e) => Err(e),
        };
        self.noted(outcome)?;
        self.tell_ended();
        Ok(())
    }
}
