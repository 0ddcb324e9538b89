use crate::clients::{Ended, Visit};
use crate::door_sizes::{DoorSizes, Share};
use crate::hall::{Hall, Next};
use crate::session_sink::SessionSink;
use crate::session_source::SessionSource;
use sd_log::RunLog;
use sd_open::{Sockets, host_of, refusal};
use sd_outside::{Address, Door, Entry, Faulty, OpenRefusal, Opens, fault, opening_fault};
use sd_timing::{Stop, take_turn};
use std::alloc::Global;
use std::net::{Net, TcpListener, TcpStream};
use std::thread::sleep;
use std::time::{Clock, Duration};

/// How long a door that isn't open waits before it says so, in milliseconds.
const NAP_MS: u64 = 50;

/// A door over TCP, at a socket of its own or at one that was handed over, which holds all open connections and gives as a session
/// whole lines that one of them has sent: one line, or all that are there. The next one is that whose client's last sign of life is
/// the oldest, and at each second turn that whose is the latest. What becomes of a line that is too long, its sizes say. What a
/// client has sent behind its last newline is lost where it leaves. A session that was read to its end leaves its connection open;
/// any other closes it, once what was told is taken. What a client doesn't take of what it is told is held for it, and it is let go
/// where it takes nothing for five seconds.
///
/// Where all places are taken and another client comes, the one goes whose last sign of life is the oldest, unless it has sent
/// what a session has, or has had less than a second to take what it was told. A client that says nothing for an hour is let go.
/// Who is let go before it has taken all is a fault.
///
/// Once `stop` is set, the door looks on until a look brought nothing new and all that was told is taken, or for 0.8 seconds,
/// gives the sessions that it has, as long as that is no more than four seconds ago, and then ends.
#[derive(Drop)]
pub struct TcpDoor<'a, R> {
    host: &'a R,
    alloc: Global,
    sockets: &'a Sockets,
    stop: &'a Stop,
    sizes: DoorSizes,
    log: &'a RunLog<'a>,
    hall: Option<Hall<'a>>,
    is_out: bool,
    opened_at: Option<Address>,
    faults: u64,
    turns: u64,
}

impl<'a, R> TcpDoor<'a, R> {
    ghost use Rattle.std.specs.Prelude.{◌≡◌};
    ghost use Rattle.sd_model_outside.specs.Outside.{Unknown, fresh};

    /// A door that is opened later, and takes its room then. It is to stop once `stop` is set.
    pub fn new(
        host: &'a R,
        alloc: Global,
        sockets: &'a Sockets,
        stop: &'a Stop,
        sizes: DoorSizes,
        log: &'a RunLog<'a>,
    ) -> TcpDoor<'a, R>
        ensures { ⟦<TcpDoor<'a, R> as Faulty>⟧.seen result ≡ fresh Unknown }
    {
        TcpDoor {
            host,
            alloc,
            sockets,
            stop,
            sizes,
            log,
            hall: None,
            is_out: false,
            opened_at: None,
            faults: 0,
            turns: 0,
        }
    }

    /// How often it failed.
    pub fn faults(&self) -> u64
        ensures { result ≡ (⟦<TcpDoor<'a, R> as Faulty>⟧.seen self.now).faults }
    {
        self.faults
    }

    /// Tells the log whose session begins, where it is an admin's.
    fn note_client(&self, visit: &Visit) {
        if self.sizes.share == Share::Line {
            if let Some(client) = visit.client.address() {
                self.log.note_client(&client);
            }
        }
    }

    /// The port that it listens at, where it is open.
    pub fn port(&self) -> Option<u16> {
        self.hall.as_ref()?.port()
    }
}

impl<'a, R> Faulty for TcpDoor<'a, R> {
    ghost use Rattle.std.specs.Prelude.{min, None};
    ghost use Rattle.std.proofs.Common.{arith};
    ghost use Rattle.sd_model_outside.specs.Outside.{Object, Unknown, last_count};
    ghost use Rattle.sd_outside.specs.Places.{last_place};

    ghost seen = { λ s. record {
      content = Unknown;
      faults = min s.faults last_count;
      opened_at = last_place s.opened_at;
      turns = min s.turns last_count;
      is_out = s.is_out;
      interval = None;
    } };

    ghost faults_fit = { λ s. omega arith };
}

impl<'a, R: Net<Listener = TcpListener, Stream = TcpStream> + Clock> Opens for TcpDoor<'a, R> {
    /// Takes the room of all clients, and listens.
    fn open_at(&mut self, at: &Address) -> Result<(), OpenRefusal> {
        let Some(place) = host_of(at) else {
            return Err(opening_fault(&mut self.faults));
        };
        let hall = match self.sockets.listener_at(self.host, place) {
            Ok(listener) => Hall::open(self.host, self.alloc, listener, self.sizes, self.log),
            Err(e) => Err(e),
        };
        match hall {
            Ok(hall) => {
                self.hall = Some(hall);
                self.opened_at = Some(at.copied());
                Ok(())
            }
            Err(e) => {
                self.log.note_reason(&e);
                Err(refusal(&e, &mut self.faults))
            }
        }
    }
}

/// What comes next of a door that may be open.
fn next_of<R: Clock>(host: &R, stop: &Stop, hall: &mut Option<Hall<'_>>) -> Next {
    match hall {
        Some(hall) => hall.next(host, stop),
        None if stop.is_set() => Next::End,
        None => {
            sleep(host, Duration::from_millis(NAP_MS));
            Next::Failed
        }
    }
}

impl<'a, R: Net<Listener = TcpListener, Stream = TcpStream> + Clock> Door for TcpDoor<'a, R> {
    type Asking = SessionSource;

    type Telling = SessionSink;

    ghost use Rattle.std.proofs.Common.{arith};

    fn next_session(&mut self) -> Entry<SessionSource, SessionSink> {
        match next_of(self.host, self.stop, &mut self.hall) {
            Next::Visit(visit) => {
                self.is_out = true;
                self.note_client(&visit);
                take_turn(&mut self.turns);
                Entry::Session(
                    SessionSource::new(visit.place, visit.lines, self.sizes.share),
                    SessionSink::new(visit.client, visit.room),
                )
            }
            Next::Nothing => {
                take_turn(&mut self.turns);
                Entry::Idle
            }
            Next::Failed => {
                fault(&mut self.faults);
                take_turn(&mut self.turns);
                Entry::Failed
            }
            Next::End => Entry::End,
        }
    }

    fn leave(&mut self, asking: SessionSource, telling: SessionSink) {
        let has_failed = asking.has_failed() || telling.has_failed();
        if has_failed {
            fault(&mut self.faults);
        }
        self.is_out = false;
        let ended = if has_failed {
            Ended::Failed
        } else if asking.is_read {
            Ended::Read
        } else {
            Ended::Asked
        };
        if let Some(hall) = &mut self.hall {
            hall.take_back(self.host, asking.place, asking.lines, telling.client, ended);
        }
    }

    ghost turns_fit = { λ s. omega arith };
}
