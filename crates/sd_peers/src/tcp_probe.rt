ghost use Rattle.std.specs.Prelude.{◌≡◌};

use crate::conversation::{Conversation, Progress, ReplyLine};
use crate::hosts::Hosts;
use mio::{Events, Poll};
use sd_edge::TimeLimit;
use sd_log::RunLog;
use sd_open::host_of;
use sd_outside::{Address, Failed, Faulty, Probe, fault};
use sd_timing::now;
use std::alloc::Global;
use std::io::{self, ErrorKind};
use std::thread::Threads;
use std::time::Duration;

/// How long a question may take, from connecting to the end of the reply's first line, in milliseconds.
const ASK_MS: u64 = 2_000;

/// How long the questions to servers that weren't known before may take together, in milliseconds.
const FIRST_MS: u64 = 2_500;

/// How long each of them has nevertheless, in milliseconds.
const LEAST_MS: u64 = 5;

/// How many servers are asked at most, and how many of them a wait tells of at once.
const MOST_SERVERS: usize = 64;

/// How long a wait takes at most before the clock is looked at again, in milliseconds.
const SLICE_MS: u64 = 100;

/// A probe over TCP, which connects anew for each question, and hangs up once it has read one line. A question fails where nobody
/// takes the connection, where its time limit is past, and where the server hangs up before the line's end, unless it has sent as
/// much as is put out of a line. Of a question that failed nothing is put out.
///
/// Servers are asked in turns. Once it knows them, from the first turn, all of a turn are asked side by side as soon as the first of
/// them is, so a turn takes no longer than one question.
#[derive(Drop)]
pub struct TcpProbe<'a, X> {
    host: &'a HostRuntime,
    threads: &'a X,
    hosts: &'a Hosts,
    log: &'a RunLog<'a>,
    questions: Option<Questions<'a>>,
    faults: u64,
}

/// The questions to all servers that are known.
#[derive(Drop)]
struct Questions<'a> {
    poll: Poll,
    events: Events<Global>,
    all: Vec<Conversation<'a>>,
    first: TimeLimit,
}

impl<'a, X> TcpProbe<'a, X> {
    ghost use Rattle.std.specs.Prelude.{◌≡◌};
    ghost use Rattle.sd_model_outside.specs.Outside.{Unknown, fresh};

    /// A probe that has asked nothing.
    pub fn new(
        host: &'a HostRuntime,
        threads: &'a X,
        hosts: &'a Hosts,
        log: &'a RunLog<'a>,
    ) -> TcpProbe<'a, X>
        ensures { ⟦<TcpProbe<'a, X> as Faulty>⟧.seen result ≡ fresh Unknown }
    {
        TcpProbe {
            host,
            threads,
            hosts,
            log,
            questions: None,
            faults: 0,
        }
    }

    /// How often it failed.
    pub fn faults(&self) -> u64
        ensures { result ≡ (⟦<TcpProbe<'a, X> as Faulty>⟧.seen self.now).faults }
    {
        self.faults
    }
}

impl<'a> Questions<'a> {
    /// # Errors
    ///
    /// Those of the system, the clock, and `OutOfMemory`.
    fn open(host: &HostRuntime) -> io::Result<Questions<'a>> {
        let alloc = host.alloc();
        Ok(Questions {
            poll: Poll::new(host)?,
            events: Events::with_capacity(alloc, MOST_SERVERS)?,
            all: Vec::with_capacity(alloc, MOST_SERVERS)?,
            first: TimeLimit::after(now(host)?, FIRST_MS),
        })
    }

    fn place_of(&self, at: &Address) -> Option<usize> {
        for (place, conversation) in self.all.iter().enumerate() {
            if conversation.is_with(at) {
                return Some(place);
            }
        }
        None
    }

    /// Whether the server in a place isn't asked just now.
    fn is_idle(&self, place: usize) -> bool {
        match self.all.get(place) {
            Some(conversation) => conversation.progress == Progress::Idle,
            None => false,
        }
    }

    /// Begins the question to a server that wasn't known, and answers its place.
    ///
    /// # Errors
    ///
    /// `InvalidInput` where the address isn't a host's, `StorageFull` where there are too many names or servers, and those of the
    /// clock.
    fn begin_first(
        &mut self,
        threads: &impl Threads,
        host: &HostRuntime,
        hosts: &'a Hosts,
        at: &Address,
    ) -> io::Result<usize> {
        let place = self.all.len();
        let conversation = conversation_at(hosts, at)?;
        if place >= MOST_SERVERS || self.all.push(conversation).is_err() {
            return Err(io::Error::from(ErrorKind::StorageFull));
        }
        let moment = now(host)?;
        let limit = TimeLimit::after(moment, ASK_MS).and(self.first);
        let limit = limit.or(TimeLimit::after(moment, LEAST_MS));
        self.begin(threads, host, place, limit, moment);
        Ok(place)
    }

    /// Begins the questions to all servers.
    ///
    /// # Errors
    ///
    /// Those of the clock.
    fn begin_all(&mut self, threads: &impl Threads, host: &HostRuntime) -> io::Result<()> {
        let moment = now(host)?;
        for place in 0..self.all.len() {
            self.begin(
                threads,
                host,
                place,
                TimeLimit::after(moment, ASK_MS),
                moment,
            );
        }
        Ok(())
    }

    fn begin(
        &mut self,
        threads: &impl Threads,
        host: &HostRuntime,
        place: usize,
        limit: TimeLimit,
        moment: u64,
    ) {
        if let Some(conversation) = self.all.get_mut(place) {
            conversation.name().keep_up(threads, host, moment);
            conversation.begin(host, self.poll.registry(), place, limit);
        }
    }

    /// Lets all questions go on until one has ended, and answers how.
    ///
    /// # Errors
    ///
    /// Those of the system.
    fn end_of(&mut self, host: &HostRuntime, place: usize) -> io::Result<Progress> {
        for _ in 0..u64::MAX {
            for (token, conversation) in self.all.iter_mut().enumerate() {
                conversation.advance(host, self.poll.registry(), token);
            }
            let Some(conversation) = self.all.get(place) else {
                break;
            };
            if conversation.progress != Progress::Asking {
                return Ok(conversation.progress);
            }
            let left = conversation.left(now(host)?).min(SLICE_MS);
            self.poll
                .poll(&mut self.events, Some(Duration::from_millis(left)))?;
        }
        Ok(Progress::Failed)
    }

    /// Why the last address of the server in a place gave no answer: `NotFound` where none is known.
    fn fault_at(&self, place: usize) -> io::Error {
        match self.all.get(place) {
            Some(conversation) => io::Error::from(conversation.fault),
            None => io::Error::from(ErrorKind::NotFound),
        }
    }

    /// Puts out the line of a question that has ended, and hangs up.
    fn put_out(&mut self, place: usize, out: &mut ReplyLine) {
        if let Some(conversation) = self.all.get_mut(place) {
            for &byte in conversation.line.as_slice() {
                let _ = out.try_push(byte);
            }
            conversation.end();
        }
    }
}

/// A conversation with the server at an address.
///
/// # Errors
///
/// `InvalidInput` where the address isn't a host's, and `StorageFull` where there are too many names.
fn conversation_at<'a>(hosts: &'a Hosts, at: &Address) -> io::Result<Conversation<'a>> {
    match at {
        Address::Host { host, port } if host_of(at).is_some() => match hosts.at(host) {
            Some(name) => Ok(Conversation::with(at.copied(), name, *port)),
            None => Err(io::Error::from(ErrorKind::StorageFull)),
        },
        _ => Err(io::Error::from(ErrorKind::InvalidInput)),
    }
}

impl<'a, X: Threads> TcpProbe<'a, X> {
    /// Asks the server at an address, and puts out the first line of its reply.
    ///
    /// # Errors
    ///
    /// Those of the last connection that was tried, `TimedOut` where it doesn't answer, and those of beginning a question.
    fn reply_of(&mut self, at: &Address, out: &mut ReplyLine) -> io::Result<()>
        ensures { self.new.faults ≡ self.old.faults }
    {
        if self.questions.is_none() {
            self.questions = Some(Questions::open(self.host)?);
        }
        let Some(questions) = &mut self.questions else {
            return Err(io::Error::from(ErrorKind::NotFound));
        };
        let place = match questions.place_of(at) {
            Some(place) => {
                if questions.is_idle(place) {
                    questions.begin_all(self.threads, self.host)?;
                }
                place
            }
            None => questions.begin_first(self.threads, self.host, self.hosts, at)?,
        };
        let progress = questions.end_of(self.host, place)?;
        questions.put_out(place, out);
        match progress {
            Progress::Answered => Ok(()),
            Progress::Idle | Progress::Asking | Progress::Failed => {
                Err(questions.fault_at(place))
            }
        }
    }
}

impl<'a, X> Faulty for TcpProbe<'a, X> {
    ghost use Rattle.std.specs.Prelude.{min, None};
    ghost use Rattle.std.proofs.Common.{arith};
    ghost use Rattle.sd_model_outside.specs.Outside.{Unknown, last_count, object_of};

    ghost seen = { λ s. object_of Unknown (min s.faults last_count) None };

    ghost faults_fit = { λ s. omega arith };
}

impl<'a, X: Threads> Probe for TcpProbe<'a, X> {
    fn ask(&mut self, at: &Address, out: &mut ReplyLine) -> Result<(), Failed> {
        out.clear();
        match self.reply_of(at, out) {
            Ok(()) => Ok(()),
            Err(e) => {
                self.log.note_reason(&e);
                out.clear();
                Err(fault(&mut self.faults))
            }
        }
    }
}
