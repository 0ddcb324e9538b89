use crate::client::Client;
use crate::clients::{Clients, Ended, Visit};
use crate::door_sizes::DoorSizes;
use crate::look::Look;
use mio::net::TcpListener;
use mio::{Events, Interest, Poll, Token};
use sd_edge::{Backoff, LineBuffer, left_of};
use sd_log::RunLog;
use sd_timing::Stop;
use std::alloc::Global;
use std::io::{self, ErrorKind};
use std::net::{self, Net};
use std::thread::sleep;
use std::time::{Clock, Duration};

/// How long a door waits until something comes, in milliseconds: at first, and at most once nothing has come for a while. It sees a
/// stop then.
const WAIT_MS: (u64, u64) = (250, 2_000);

/// How long it waits where a connection has no place yet, or failed, in milliseconds.
const RETRY_MS: u64 = 50;

/// How long it waits where a client hasn't taken what it was told, in milliseconds.
const TELL_MS: u64 = 200;

/// How long it looks on once it has seen that it is to stop, where something new comes at each look or something that was told
/// isn't taken, in milliseconds.
const DRAIN_MS: u64 = 800;

/// How long behind that the sessions that it has are given at most, in milliseconds.
const LAST_MS: u64 = 4_000;

/// What comes next of a door.
pub(crate) enum Next {
    /// A client that has sent what a session has.
    Visit(Visit),
    /// Nothing, for now.
    Nothing,
    /// The listener, a connection or the system failed.
    Failed,
    /// Nothing any more.
    End,
}

/// What an open door holds: its listener, its clients, and what the looks at them brought.
#[derive(Drop)]
pub(crate) struct Hall<'a> {
    listener: TcpListener,
    poll: Poll,
    events: Events<Global>,
    clients: Clients<'a>,
    /// What the last look brought.
    looked: Look,
    /// How long the next look waits where nothing else says so.
    wait: Backoff,
    /// When it was, in milliseconds.
    looked_at: u64,
    /// When it saw that it is to stop, in milliseconds.
    saw_stop: Option<u64>,
    /// Whether there is no look any more.
    looked_last: bool,
}

/// How long it is since some moment, in milliseconds.
fn millis_of(host: &impl Clock) -> Option<u64> {
    let now = host.monotonic().ok()?;
    u64::try_from(now.as_millis()).ok()
}

fn out_of_memory() -> io::Error {
    io::Error::from(ErrorKind::OutOfMemory)
}

impl<'a> Hall<'a> {
    /// A hall at a listener that doesn't wait, with the room of all clients.
    ///
    /// # Errors
    ///
    /// Those of the system, and `OutOfMemory`.
    pub(crate) fn open<R: Net>(
        host: &R,
        alloc: Global,
        listener: net::TcpListener,
        sizes: DoorSizes,
        log: &'a RunLog<'a>,
    ) -> io::Result<Hall<'a>> {
        let port = match listener.local_addr() {
            Ok(addr) => addr.port(),
            Err(_) => 0,
        };
        let clients = Clients::open(alloc, sizes, log, port).map_err(|_| out_of_memory())?;
        let number = clients.listener_number();
        let events = Events::with_capacity(alloc, number.saturating_add(1)).map_err(
            |_| out_of_memory(),
        )?;
        let poll = Poll::new(host)?;
        let mut listener = TcpListener::from_std(listener);
        poll.registry()
            .register(&mut listener, Token(number), Interest::READABLE)?;
        Ok(Hall {
            listener,
            poll,
            events,
            clients,
            looked: Look::NOTHING,
            wait: Backoff::between(WAIT_MS.0, WAIT_MS.1),
            looked_at: 0,
            saw_stop: None,
            looked_last: false,
        })
    }

    /// The port that it listens at.
    pub(crate) fn port(&self) -> Option<u16> {
        match self.listener.local_addr() {
            Ok(addr) => Some(addr.port()),
            Err(_) => None,
        }
    }

    /// What the time is, or was at the last look where the clock fails, in milliseconds.
    fn now(&self, host: &impl Clock) -> u64 {
        millis_of(host).unwrap_or(self.looked_at)
    }

    /// How long the next look may wait until something comes, in milliseconds.
    fn wait_limit(&self) -> u64 {
        if self.looked.is_new || self.clients.has_next() {
            return 0;
        }
        let limit = if self.looked.has_failed || self.clients.has_newcomer() {
            RETRY_MS
        } else if self.clients.is_telling() {
            TELL_MS
        } else {
            self.wait.wait
        };
        match self.saw_stop {
            Some(_) if !self.clients.is_telling() => 0,
            Some(since) => limit.min(left_of(DRAIN_MS, since, self.looked_at)),
            None => limit,
        }
    }

    /// Waits until something comes, and notes what that is.
    ///
    /// # Errors
    ///
    /// Those of the system.
    fn wait(&mut self) -> io::Result<()> {
        let limit = Duration::from_millis(self.wait_limit());
        self.poll.poll(&mut self.events, Some(limit))?;
        for event in self.events.iter() {
            self.clients.note(event);
        }
        if self.events.is_empty() {
            self.wait.grow();
        } else {
            self.wait.reset();
        }
        Ok(())
    }

    /// Waits until something comes, reads what the clients have sent, tells them what they haven't taken, and takes the
    /// connections that wait.
    fn look(&mut self, host: &impl Clock) -> Look {
        if self.wait().is_err() {
            sleep(host, Duration::from_millis(RETRY_MS));
            return Look::FAULT;
        }
        let now = self.now(host);
        self.looked_at = now;
        let is_retry = self.events.is_empty();
        let mut look = self.clients.attend_all(now, is_retry);
        if !look.has_failed {
            look = look.and(self.clients.let_go_overdue(now));
        }
        if !look.has_failed {
            look = look.and(self.clients.accept(&self.listener, &self.poll, now));
        }
        look
    }

    /// Whether no look is worth it any more, once it is to stop.
    fn has_drained(&self) -> bool {
        let Some(since) = self.saw_stop else {
            return false;
        };
        let is_still = !self.looked.is_new
            && !self.clients.has_next()
            && !self.clients.is_telling();
        is_still || left_of(DRAIN_MS, since, self.looked_at) == 0
    }

    /// What comes next, as far as one look tells.
    pub(crate) fn next(&mut self, host: &impl Clock, stop: &Stop) -> Next {
        if !self.looked_last {
            if self.saw_stop.is_none() && stop.is_set() {
                self.looked_at = self.now(host);
                self.saw_stop = Some(self.looked_at);
            }
            self.looked = self.look(host);
            self.looked_last = self.has_drained();
            if self.looked.has_failed {
                return Next::Failed;
            }
        }
        if self.clients.take_lost() {
            return Next::Failed;
        }
        if self.is_over(host) {
            return Next::End;
        }
        match self.clients.next_visit() {
            Some(visit) => Next::Visit(visit),
            None if self.looked_last => Next::End,
            None => Next::Nothing,
        }
    }

    /// Whether no session is given any more, once it is to stop.
    fn is_over(&self, host: &impl Clock) -> bool {
        match self.saw_stop {
            Some(since) => left_of(LAST_MS, since, self.now(host)) == 0,
            None => false,
        }
    }

    /// Gives a client back to its place, and has the next look not wait.
    pub(crate) fn take_back(
        &mut self,
        host: &impl Clock,
        place: usize,
        lines: LineBuffer,
        client: Client,
        ended: Ended,
    ) {
        self.looked_at = self.now(host);
        self.looked = Look::NEWS;
        self.clients
            .take_back(place, lines, client, ended, self.looked_at);
    }
}
