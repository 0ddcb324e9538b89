ghost use Rattle.std.specs.Prelude.{◌≤◌, length, IfOk};

use mio::event::Event;
use mio::net::TcpStream;
use mio::{Interest, Poll, Token};
use sd_edge::Outbox;
use std::alloc::Global;
use std::io::{self, ErrorKind, Read, Write};
use std::net::{Shutdown, SocketAddr};

/// How many writes in a row a client is told something by, at most.
const MOST_WRITES: usize = 16;

/// How much a client is told at once, and how much more is held for it before it is tried again whether it takes some, in bytes.
const PIECE: usize = 65_536;

/// Why a read of a client brought no bytes.
#[derive(Clone, Copy)]
pub(crate) enum Unheard {
    /// It has sent nothing more for now.
    Quiet,
    /// It sends no more.
    End,
    /// The connection failed.
    Failed,
}

/// What a write to a client came to.
#[derive(Clone, Copy)]
pub(crate) enum Taken {
    /// It has taken all.
    All,
    /// It has taken some.
    Some,
    /// It took nothing, for now.
    Nothing,
    /// The connection failed.
    Failed,
}

/// A connection, with what was told over it and isn't taken yet, and what it is ready for.
#[derive(Drop)]
pub(crate) struct Client {
    stream: TcpStream,
    outbox: Outbox,
    /// How much of the outbox was there when it last took nothing, in bytes.
    tried_at: usize,
    /// Whether more may wait to be read.
    pub may_read: bool,
    /// Whether it may take more.
    pub may_write: bool,
    /// Whether it sends no more than what waits.
    pub is_ending: bool,
}

/// Whether a call is to be tried again later.
fn is_later(error: &io::Error) -> bool {
    error.kind() == ErrorKind::WouldBlock || error.kind() == ErrorKind::Interrupted
}

impl Client {
    /// A connection that doesn't block, which may have brought something already.
    pub(crate) fn new(alloc: Global, stream: TcpStream) -> Client {
        Client {
            stream,
            outbox: Outbox::new(alloc),
            tried_at: 0,
            may_read: true,
            may_write: false,
            is_ending: false,
        }
    }

    /// Has a poll report what it is ready for, under its place.
    ///
    /// # Errors
    ///
    /// Those of the system.
    pub(crate) fn register(&mut self, poll: &Poll, place: usize) -> io::Result<()> {
        let interests = Interest::READABLE | Interest::WRITABLE;
        poll.registry()
            .register(&mut self.stream, Token(place), interests)
    }

    /// Who is connected, where that can be told.
    pub(crate) fn address(&self) -> Option<SocketAddr> {
        self.stream.peer_addr().ok()
    }

    /// Notes what a poll has reported.
    pub(crate) fn note(&mut self, event: &Event) {
        let is_closed = event.is_error() || event.is_read_closed() || event.is_write_closed();
        self.may_read = self.may_read || event.is_readable() || is_closed;
        self.may_write = self.may_write || event.is_writable() || is_closed;
        self.is_ending = self.is_ending || is_closed;
    }

    /// Reads what it has sent to the start of a piece, and answers how many bytes these are.
    ///
    /// # Errors
    ///
    /// Why there are none.
    pub(crate) fn hear(&mut self, piece: &mut [u8]) -> Result<usize, Unheard>
        ensures { IfOk result (λ n. n ≤ length piece.new) }
    {
        match self.stream.read(piece) {
            Ok(0) => Err(Unheard::End),
            Ok(count) => Ok(count),
            Err(e) if is_later(&e) => {
                self.may_read = false;
                Err(Unheard::Quiet)
            }
            Err(_) => Err(Unheard::Failed),
        }
    }

    /// How much of what it was told it hasn't taken, in bytes.
    pub(crate) fn untaken(&self) -> usize {
        self.outbox.len()
    }

    /// Writes what it hasn't taken yet.
    pub(crate) fn tell_rest(&mut self) -> Taken {
        let mut taken = Taken::Nothing;
        for _ in 0..MOST_WRITES {
            if self.outbox.is_empty() {
                self.tried_at = 0;
                return Taken::All;
            }
            match self.stream.write(self.outbox.as_slice()) {
                Ok(count) => {
                    self.outbox.take(count);
                    taken = Taken::Some;
                }
                Err(e) if is_later(&e) => {
                    self.may_write = false;
                    break;
                }
                Err(_) => return Taken::Failed,
            }
        }
        self.tried_at = self.outbox.len();
        taken
    }

    /// Tells it bytes from the start of those given: they are held for it, where so much room is left, until they make a large piece
    /// or the rest is told. Answers how many these are: none where it is cut off.
    pub(crate) fn tell(&mut self, bytes: &[u8], room: usize) -> usize
        ensures { result ≤ length bytes.now }
    {
        if self.outbox.len() >= self.tried_at.saturating_add(PIECE) && self.is_lost() {
            return 0;
        }
        let count = bytes.len().min(room.saturating_sub(self.outbox.len()));
        match self.outbox.push(&bytes[..count]) {
            Ok(()) => count,
            Err(_) => 0,
        }
    }

    /// Tries whether it takes some of what is held for it, and answers whether its connection failed.
    fn is_lost(&mut self) -> bool {
        matches!(self.tell_rest(), Taken::Failed)
    }

    /// Says that it will be told no more.
    pub(crate) fn end_telling(&mut self) {
        let _ = self.stream.shutdown(Shutdown::Write);
        self.may_read = true;
    }
}
