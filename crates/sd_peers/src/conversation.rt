use crate::hosts::Host;
use arrayvec::ArrayVec;
use mio::net::TcpStream;
use mio::{Interest, Registry, Token};
use sd_edge::TimeLimit;
use sd_outside::Address;
use sd_timing::now;
use std::io::{self, ErrorKind, Read, Write};
use std::net::{IpAddr, SocketAddr};

/// What a server is asked.
const QUESTION: &[u8] = b"health\n";

/// How many bytes of a reply's line are put out at most.
const MOST_LINE: usize = 1_024;

/// The first line of a reply, as much as is put out of it.
pub(crate) type ReplyLine = ArrayVec<u8, MOST_LINE>;

/// How far a question has come.
#[derive(Clone, Copy, Debug, PartialEq, Eq)]
pub(crate) enum Progress {
    /// Nobody is asked.
    Idle,
    /// The reply isn't there yet.
    Asking,
    /// The first line of the reply is there.
    Answered,
    /// No address of the name answers, or the time is up.
    Failed,
}

/// A connection to one address of a server.
#[derive(Drop)]
struct Connection {
    stream: TcpStream,
    ip: IpAddr,
    asked: usize,
    limit: TimeLimit,
}

/// A question to a server and its reply, over a connection of its own, whose calls never wait. Where an address fails, the next one
/// of the name is tried.
#[derive(Drop)]
pub(crate) struct Conversation<'a> {
    address: Address,
    name: &'a Host,
    port: u16,
    connection: Option<Connection>,
    tried: usize,
    limit: TimeLimit,
    pub progress: Progress,
    pub line: ReplyLine,
    /// Why the last address that was tried failed.
    pub fault: ErrorKind,
}

/// Puts out bytes up to the first newline, as long as there is room. Whether nothing more of the line is wanted.
fn put_line(bytes: &[u8], out: &mut ReplyLine) -> bool {
    for &byte in bytes {
        if byte == b'\n' || out.try_push(byte).is_err() {
            return true;
        }
    }
    out.is_full()
}

impl Connection {
    /// Goes on as far as nothing has to be waited for, and answers whether the reply's line is there.
    ///
    /// # Errors
    ///
    /// `UnexpectedEof` where the server hangs up before, `TimedOut`, and those of the connection.
    fn advance(&mut self, now: u64, line: &mut ReplyLine) -> io::Result<bool> {
        if let Some(e) = self.stream.take_error()? {
            return Err(e);
        }
        if self.stream.peer_addr().is_ok() {
            self.ask()?;
            if self.hear(line)? {
                return Ok(true);
            }
        }
        match self.limit.left(now) {
            Some(_) => Ok(false),
            None => Err(io::Error::from(ErrorKind::TimedOut)),
        }
    }

    fn ask(&mut self) -> io::Result<()> {
        let rest = QUESTION.get(self.asked..).unwrap_or(&[]);
        if rest.is_empty() {
            return Ok(());
        }
        match self.stream.write(rest) {
            Ok(count) => self.asked = self.asked.saturating_add(count),
            Err(e) if is_unfinished(&e) => {}
            Err(e) => return Err(e),
        }
        Ok(())
    }

    fn hear(&mut self, line: &mut ReplyLine) -> io::Result<bool> {
        let mut chunk = [0u8; MOST_LINE];
        for _ in 0..u64::MAX {
            match self.stream.read(&mut chunk) {
                Ok(0) => return Err(io::Error::from(ErrorKind::UnexpectedEof)),
                Ok(count) => {
                    if put_line(&chunk[..count], line) {
                        return Ok(true);
                    }
                }
                Err(e) if is_unfinished(&e) => break,
                Err(e) => return Err(e),
            }
        }
        Ok(false)
    }
}

fn is_unfinished(error: &io::Error) -> bool {
    matches!(error.kind(), ErrorKind::WouldBlock | ErrorKind::Interrupted)
}

impl<'a> Conversation<'a> {
    /// One with a server that nobody has asked.
    pub(crate) fn with(address: Address, name: &'a Host, port: u16) -> Conversation<'a> {
        Conversation {
            address,
            name,
            port,
            connection: None,
            tried: 0,
            limit: TimeLimit { end: 0 },
            progress: Progress::Idle,
            line: ReplyLine::new(),
            fault: ErrorKind::NotFound,
        }
    }

    /// Whether it is with the server at this address.
    pub(crate) fn is_with(&self, address: &Address) -> bool {
        self.address == *address
    }

    /// The server's name.
    pub(crate) fn name(&self) -> &'a Host {
        self.name
    }

    /// Begins a question that is to be answered within a limit.
    pub(crate) fn begin(
        &mut self,
        host: &HostRuntime,
        registry: &Registry,
        token: usize,
        limit: TimeLimit,
    ) {
        self.limit = limit;
        self.tried = 0;
        self.line.clear();
        self.progress = Progress::Asking;
        self.fault = ErrorKind::NotFound;
        self.try_next(host, registry, token);
    }

    /// Tries the address of the name that is in use, which has its share of what is left, unless each known one was tried.
    fn try_next(&mut self, host: &HostRuntime, registry: &Registry, token: usize) {
        let count = self.name.count();
        for _ in self.tried..count {
            self.tried = self.tried.saturating_add(1);
            let Some(ip) = self.name.address() else {
                break;
            };
            match self.connect(host, registry, token, ip, count) {
                Ok(connection) => {
                    self.connection = Some(connection);
                    return;
                }
                Err(e) => {
                    self.fault = e.kind();
                    self.name.fail(ip);
                }
            }
        }
        self.connection = None;
        self.progress = Progress::Failed;
    }

    fn connect(
        &self,
        host: &HostRuntime,
        registry: &Registry,
        token: usize,
        ip: IpAddr,
        count: usize,
    ) -> io::Result<Connection> {
        let moment = now(host)?;
        let rest = count.saturating_sub(self.tried).saturating_add(1);
        let Some(share) = self.limit.share(moment, rest) else {
            return Err(io::Error::from(ErrorKind::TimedOut));
        };
        let mut stream = TcpStream::connect(host, SocketAddr::new(ip, self.port))?;
        registry.register(
            &mut stream,
            Token(token),
            Interest::READABLE | Interest::WRITABLE,
        )?;
        Ok(Connection {
            stream,
            ip,
            asked: 0,
            limit: TimeLimit::after(moment, share),
        })
    }

    /// Goes on as far as nothing has to be waited for.
    pub(crate) fn advance(&mut self, host: &HostRuntime, registry: &Registry, token: usize) {
        if self.progress != Progress::Asking {
            return;
        }
        let Some(mut connection) = self.connection.take() else {
            self.progress = Progress::Failed;
            return;
        };
        let moment = now(host).unwrap_or(u64::MAX);
        match connection.advance(moment, &mut self.line) {
            Ok(true) => {
                self.name.serve(connection.ip);
                self.progress = Progress::Answered;
            }
            Ok(false) => self.connection = Some(connection),
            Err(e) => {
                self.fault = e.kind();
                self.name.fail(connection.ip);
                self.line.clear();
                self.try_next(host, registry, token);
            }
        }
    }

    /// How many milliseconds the address that is tried has left.
    pub(crate) fn left(&self, now: u64) -> u64 {
        match &self.connection {
            Some(connection) => connection.limit.left(now).unwrap_or(0),
            None => 0,
        }
    }

    /// Ends the question, and hangs up.
    pub(crate) fn end(&mut self) {
        self.connection = None;
        self.progress = Progress::Idle;
    }
}
