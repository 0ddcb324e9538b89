//! What a server or a proxy tells of itself on standard error.

use crate::log_text::{COUNTED, Pairs, ShortText, amount_in};
use crate::lost::dropped_at;
use log::kv::Source;
use log::span::Spans;
use log::{Level, LevelFilter, Log, Metadata, Record};
use sd_edge::{LineLimit, LogLine};
use sd_socket::takes_errors;
use sd_timing::now;
use std::fmt::Display;
use std::io::Write;
use std::sync::{Mutex, MutexGuard};
use std::thread::sleep;
use std::time::Duration;

/// The log of a run on standard error: a line an event, as `level event key=value ..`, each by one write, of at most 1,024 bytes. It
/// tells nothing before the run says that it has started, but for what was refused, so a program that runs no server is silent.
/// Bad lines and drops are counted, and told once a flush interval with one of them; of all that isn't the start, the stop or a
/// refusal twenty lines a second are told at most, and the others counted. Nobody waits for it: what standard error doesn't take
/// at once is left out and counted, too.
#[derive(Drop)]
pub struct RunLog<'a> {
    host: &'a HostRuntime,
    level: LevelFilter,
    state: Mutex<State>,
}

/// How many events of a kind a flush interval had, and what was told of the first of them.
#[derive(Drop)]
struct Counted {
    count: u64,
    first: Option<Pairs>,
}

#[derive(Drop)]
struct State {
    is_running: bool,
    is_stopping: bool,
    /// How many lines are told in a second, of those that clients cause and of the others: none of a client's hides another.
    of_clients: LineLimit,
    others: LineLimit,
    /// When it was last told how many lines were left out, in milliseconds.
    suppressed_at: u64,
    bad: Counted,
    dropped: Counted,
    /// Why the last call of the system failed.
    reason: ShortText<96>,
    /// Whose admin session is under way.
    client: ShortText<64>,
    /// The port at which datagrams come, and how many of them the system had dropped there when it was asked last.
    port: Option<u16>,
    lost: Option<u64>,
}

/// What a flush interval had that is told at its end.
#[derive(Drop)]
struct Counts {
    bad: Option<LogLine>,
    dropped: Option<LogLine>,
    suppressed: u64,
}

/// What is done about an event.
#[derive(Clone, Copy, PartialEq, Eq)]
enum Care {
    /// It is told at once.
    Always,
    /// It is told as far as the limit of lines that clients cause goes.
    OfClients,
    /// It is told as far as the limit of the other lines goes.
    Limited,
    /// It is counted.
    Bad,
    Dropped,
}

impl Counted {
    fn none() -> Counted {
        Counted {
            count: 0,
            first: None,
        }
    }

    fn add<K: Source>(&mut self, pairs: &K) {
        if self.count == 0 {
            self.first = Some(Pairs::of(pairs));
        }
        self.count = self.count.saturating_add(amount_in(pairs, COUNTED));
    }

    /// What is told of them, where there were some, and none from then on.
    fn take(&mut self, word: &str, key: &str) -> Option<LogLine> {
        if self.count == 0 {
            return None;
        }
        let mut line = begun(Level::Warn, word.as_bytes());
        line.push_pair(key.as_bytes(), ShortText::<24>::of(&self.count).as_slice());
        if let Some(first) = &self.first {
            line.push_bytes(first.line.text.as_slice());
        }
        *self = Counted::none();
        Some(line)
    }
}

/// The start of a line.
fn begun(level: Level, word: &[u8]) -> LogLine {
    let mut line = LogLine::new();
    let level: &[u8] = match level {
        Level::Error => b"error",
        Level::Warn => b"warn",
        Level::Info => b"info",
        Level::Debug => b"debug",
        Level::Trace => b"trace",
    };
    line.push_bytes(level);
    line.push_bytes(b" ");
    line.push_bytes(word);
    line
}

/// The line of an event that has one number.
fn numbered(word: &str, key: &str, number: u64) -> LogLine {
    let mut line = begun(Level::Warn, word.as_bytes());
    line.push_pair(key.as_bytes(), ShortText::<24>::of(&number).as_slice());
    line
}

/// What is done about an event of this word.
fn care_for(word: &[u8]) -> Care {
    if word == b"bad".as_slice() {
        Care::Bad
    } else if word == b"dropped".as_slice() {
        Care::Dropped
    } else if word == b"started".as_slice()
        || word == b"refused".as_slice()
        || word == b"stopping".as_slice()
        || word == b"stopped".as_slice()
    {
        Care::Always
    } else if is_of_client(word) || word == b"client".as_slice() {
        Care::OfClients
    } else {
        Care::Limited
    }
}

/// Whether an event has a client's address behind it, where one is known.
fn is_of_client(word: &[u8]) -> bool {
    word == b"deleted".as_slice() || word == b"health".as_slice()
}

/// Whether an event has the system's reason behind it, where it has none of its own.
fn is_of_system(word: &[u8]) -> bool {
    word == b"refused".as_slice() || word == b"node_down".as_slice()
}

/// How often the log is tried at most, where another thread is at it, and how long is slept in between.
const TRIES: u32 = 200;

const NAP_MICROS: u64 = 50;

/// How far apart it is told how many lines were left out, in milliseconds at least.
const SECOND: u64 = 1_000;

impl<'a> RunLog<'a> {
    /// What the log holds, as soon as no other thread is at it. None is for longer than it takes to count or to copy a line.
    fn state(&self) -> Option<MutexGuard<'_, State>> {
        for _ in 0..TRIES {
            if let Some(state) = self.state.try_lock() {
                return Some(state);
            }
            sleep(self.host, Duration::from_micros(NAP_MICROS));
        }
        None
    }

    /// One that tells events of a level and above.
    pub fn new(host: &'a HostRuntime, level: LevelFilter) -> RunLog<'a> {
        RunLog {
            host,
            level,
            state: Mutex::new(State {
                is_running: false,
                is_stopping: false,
                of_clients: LineLimit::new(),
                others: LineLimit::new(),
                suppressed_at: 0,
                bad: Counted::none(),
                dropped: Counted::none(),
                reason: ShortText::new(),
                client: ShortText::new(),
                port: None,
                lost: None,
            }),
        }
    }

    /// Notes why a call of the system failed, for what is told next of it.
    pub fn note_reason<D: Display>(&self, reason: &D) {
        if let Some(mut state) = self.state() {
            state.reason = ShortText::of(reason);
        }
    }

    /// Notes whose admin session begins.
    pub fn note_client<D: Display>(&self, client: &D) {
        if let Some(mut state) = self.state() {
            state.client = ShortText::of(client);
        }
    }

    /// Notes at which port datagrams come, and how many of them the system has dropped there by now.
    pub fn note_port(&self, port: u16) {
        let lost = dropped_at(self.host, port);
        if let Some(mut state) = self.state() {
            state.port = Some(port);
            state.lost = lost;
        }
    }

    /// Tells that a stop was seen, once.
    pub fn note_stop(&self) {
        if self.is_first_stop() && self.level.allows(Level::Info) {
            self.write(begun(Level::Info, b"stopping"));
        }
    }

    /// Whether no stop was noted before.
    fn is_first_stop(&self) -> bool {
        match self.state() {
            Some(mut state) => {
                let is_first = !state.is_stopping;
                state.is_stopping = true;
                is_first
            }
            None => false,
        }
    }

    /// Tells what was counted since this was done last, and what the system lost meanwhile.
    pub fn end_interval(&self) {
        self.tell_interval(false);
    }

    /// The same, where it is the last time or not.
    fn tell_interval(&self, is_last: bool) {
        if !self.level.allows(Level::Warn) {
            return;
        }
        self.tell_lost();
        let Some(
            Counts {
                bad,
                dropped,
                suppressed,
            },
        ) = self.take_counts(is_last)
        else {
            return;
        };
        self.tell_counted(bad);
        self.tell_counted(dropped);
        if suppressed > 0 {
            self.write(numbered("suppressed", "lines", suppressed));
        }
    }

    fn tell_counted(&self, line: Option<LogLine>) {
        if let Some(line) = line {
            self.tell_limited(Care::Limited, line);
        }
    }

    /// What was counted, and at the end, or where it is a second ago that it was told, how many lines were left out.
    fn take_counts(&self, is_last: bool) -> Option<Counts> {
        let moment = now(self.host).ok()?;
        let mut state = self.state()?;
        let suppressed = if is_last || moment.saturating_sub(state.suppressed_at) >= SECOND {
            state.suppressed_at = moment;
            state
                .of_clients
                .take_suppressed()
                .saturating_add(state.others.take_suppressed())
        } else {
            0
        };
        Some(Counts {
            bad: state.bad.take("bad", "lines"),
            dropped: state.dropped.take("dropped", COUNTED),
            suppressed,
        })
    }

    /// By how much the system's count of lost datagrams has risen.
    fn risen_to(&self, lost: Option<u64>) -> u64 {
        let Some(mut state) = self.state() else {
            return 0;
        };
        let before = state.lost;
        state.lost = lost;
        match (before, lost) {
            (Some(before), Some(lost)) => lost.saturating_sub(before),
            _ => 0,
        }
    }

    /// The port at which datagrams come.
    fn port(&self) -> Option<u16> {
        self.state()?.port
    }

    fn tell_lost(&self) {
        let Some(port) = self.port() else {
            return;
        };
        let risen = self.risen_to(dropped_at(self.host, port));
        if risen > 0 {
            self.tell_limited(Care::Limited, numbered("lost", "datagrams", risen));
        }
    }

    /// Whether one more line that is so cared for may be told now.
    fn may_tell(&self, care: Care) -> bool {
        let Ok(moment) = now(self.host) else {
            return false;
        };
        let Some(mut state) = self.state() else {
            return false;
        };
        if care == Care::OfClients {
            state.of_clients.pass(moment)
        } else {
            state.others.pass(moment)
        }
    }

    /// Writes a line as far as its limit goes.
    fn tell_limited(&self, care: Care, line: LogLine) {
        if self.may_tell(care) {
            self.write(line);
        }
    }

    /// Writes a line, where standard error takes it at once.
    fn write(&self, mut line: LogLine) {
        line.end();
        let is_written = takes_errors()
            && self.host.stderr().write_all(line.text.as_slice()).is_ok();
        if !is_written {
            self.note_unwritten();
        }
    }

    /// Counts a line that standard error didn't take.
    fn note_unwritten(&self) {
        if let Some(mut state) = self.state() {
            state.others.suppressed = state.others.suppressed.saturating_add(1);
        }
    }

    /// The line of an event.
    fn line_of<K: Source>(&self, level: Level, word: &[u8], pairs: &K) -> LogLine {
        let pairs = Pairs::of(pairs);
        let mut line = begun(level, word);
        line.push_bytes(pairs.line.text.as_slice());
        let Some(state) = self.state() else {
            return line;
        };
        if is_of_system(word) && !pairs.has_reason && !state.reason.bytes.is_empty() {
            line.push_pair(b"reason", state.reason.as_slice());
        }
        if is_of_client(word) && !state.client.bytes.is_empty() {
            line.push_pair(b"client", state.client.as_slice());
        }
        line
    }

    /// Whether a run is under way, once this event was told.
    fn is_running_at(&self, word: &[u8]) -> bool {
        let Some(mut state) = self.state() else {
            return false;
        };
        if word == b"started".as_slice() {
            state.is_running = true;
        }
        state.is_running || word == b"refused".as_slice()
    }

    fn count_bad<K: Source>(&self, pairs: &K) {
        if let Some(mut state) = self.state() {
            state.bad.add(pairs);
        }
    }

    fn count_dropped<K: Source>(&self, pairs: &K) {
        if let Some(mut state) = self.state() {
            state.dropped.add(pairs);
        }
    }

    /// Tells an event, or counts it.
    fn take_event<K: Source>(&self, level: Level, word: &[u8], pairs: &K) {
        match care_for(word) {
            Care::Bad => self.count_bad(pairs),
            Care::Dropped => self.count_dropped(pairs),
            care @ (Care::OfClients | Care::Limited) => {
                self.tell_limited(care, self.line_of(level, word, pairs))
            }
            Care::Always => self.write(self.line_of(level, word, pairs)),
        }
    }
}

impl Log for RunLog<'_> {
    /// Of events below its level it is told, too, as it goes by the one that a run has started.
    fn enabled(&self, metadata: &Metadata<'_>) -> bool {
        match self.level {
            LevelFilter::Off => false,
            _ => LevelFilter::Info.allows(metadata.level()),
        }
    }

    fn log<D: Display, K: Source, S: Spans>(&self, record: &Record<'_, D, K, S>) {
        let word = ShortText::<32>::of(record.args());
        if !self.is_running_at(word.as_slice()) {
            return;
        }
        if word.as_slice() == b"stopped".as_slice() {
            self.tell_interval(true);
        }
        if self.level.allows(record.level()) {
            self.take_event(record.level(), word.as_slice(), record.key_values());
        }
    }

    fn flush(&self) {}

    fn target(&self) -> &str {
        ""
    }
}
