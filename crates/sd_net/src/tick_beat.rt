use sd_edge::{Backoff, FlushSeconds, TickTimes, TimeLimit};
use sd_event::flush_is_late;
use sd_log::RunLog;
use sd_outside::{Beat, Faulty, Interval, Tick, fault};
use sd_timing::{Pace, Stop, millis, now, take_turn};
use std::fs::Files;
use std::io::{self, ErrorKind};
use std::thread::sleep;
use std::time::{Clock, Duration};

/// How long a beat sleeps before it looks again whether it is to end, in milliseconds: at first, and at most.
const NAP_MS: (u64, u64) = (50, 800);

/// A beat that ticks at whole intervals from its start on, or where the system's clock is at a multiple of its interval, as its start
/// says. Where it is asked too late for several ticks, they are one. A clock that is set back gives no tick a second that an earlier
/// one had. It looks for the stop file, ends once `stop` is set, and sets it where it fails, so that no other part of a server goes on
/// without it.
#[derive(Drop)]
pub struct TickBeat<'a, R> {
    host: &'a R,
    stop: &'a Stop,
    pace: &'a Pace,
    log: &'a RunLog<'a>,
    interval: Option<Interval>,
    /// When ticks are due, where the clock could be read at the start.
    times: Option<TickTimes>,
    seconds: FlushSeconds,
    faults: u64,
    turns: u64,
}

/// A tick that is due: what comes behind it, its Unix second, and how late it is, in milliseconds.
#[derive(Clone, Copy)]
struct Due {
    times: TickTimes,
    second: u64,
    late: u64,
}

/// The first whole millisecond of the clock that never goes back that isn't past: what is counted from it comes too early by no part of
/// one.
///
/// # Errors
///
/// Those of the clock.
fn next_millisecond(host: &impl Clock) -> io::Result<u64> {
    Ok(now(host)?.saturating_add(1))
}

/// When ticks are due that start now.
///
/// # Errors
///
/// Those of the clocks.
fn times_from(host: &impl Clock, interval: Interval) -> io::Result<TickTimes> {
    if interval.is_aligned {
        let clock = millis(host.since_1970()?);
        let moment = next_millisecond(host)?;
        Ok(TickTimes::aligned(interval.ms, moment, clock))
    } else {
        Ok(TickTimes::from_start(interval.ms, next_millisecond(host)?))
    }
}

impl<'a, R> TickBeat<'a, R> {
    ghost use Rattle.std.specs.Prelude.{◌≡◌};
    ghost use Rattle.sd_model_outside.specs.Outside.{Unknown, fresh};

    /// A beat that is started later, of which `pace` is told. It is to end once `stop` is set.
    pub fn new(host: &'a R, stop: &'a Stop, pace: &'a Pace, log: &'a RunLog<'a>) -> TickBeat<'a, R>
        ensures { ⟦<TickBeat<'a, R> as Faulty>⟧.seen result ≡ fresh Unknown }
    {
        TickBeat {
            host,
            stop,
            pace,
            log,
            interval: None,
            times: None,
            seconds: FlushSeconds::every(0),
            faults: 0,
            turns: 0,
        }
    }

    /// How often it failed.
    pub fn faults(&self) -> u64
        ensures { result ≡ (⟦<TickBeat<'a, R> as Faulty>⟧.seen self.now).faults }
    {
        self.faults
    }
}

impl<'a, R: Clock + Files> TickBeat<'a, R> {
    /// Waits until a tick is due, or it is to end.
    ///
    /// # Errors
    ///
    /// `InvalidInput` where it wasn't started, and those of the clocks.
    fn wait(&self) -> io::Result<Option<Due>> {
        let Some(times) = self.times else {
            return Err(io::Error::from(ErrorKind::InvalidInput));
        };
        let due = TimeLimit { end: times.due };
        let mut nap = Backoff::between(NAP_MS.0, NAP_MS.1);
        for _ in 0..u64::MAX {
            if self.stop.seen_at(self.host).is_some() {
                return Ok(None);
            }
            let moment = now(self.host)?;
            match due.left(moment) {
                Some(left) => sleep(self.host, Duration::from_millis(left.min(nap.wait))),
                None => return self.due_at(times, moment),
            }
            nap.grow();
        }
        Ok(None)
    }

    /// The tick that is due by a moment.
    ///
    /// # Errors
    ///
    /// Those of the system's clock.
    fn due_at(&self, mut times: TickTimes, moment: u64) -> io::Result<Option<Due>> {
        let clock = self.host.since_1970()?;
        let late = moment.saturating_sub(times.due);
        match self.interval {
            Some(
                Interval {
                    is_aligned: true,
                    ..
                },
            ) => times.pass_aligned(next_millisecond(self.host)?, millis(clock)),
            _ => times.pass(moment),
        }
        Ok(Some(Due {
            times,
            second: clock.as_secs(),
            late,
        }))
    }

    /// Tells the log that an interval is over, and where its tick came late.
    fn tell_tick(&self, due: &Due) {
        self.log.end_interval();
        if due.late > due.times.interval / 10 {
            flush_is_late(self.log, due.late);
        }
    }

    /// Tells the log that a stop was seen.
    fn tell_stop(&self) {
        self.log.note_stop();
        self.log.end_interval();
    }

    /// Tells the second of the last flush, where no tick comes any more: that at which the next one would have come.
    fn tell_last(&self) {
        let Some(times) = self.times else {
            return;
        };
        let (Ok(moment), Ok(clock)) = (now(self.host), self.host.since_1970()) else {
            return;
        };
        let left = TimeLimit { end: times.due }.left(moment).unwrap_or(0);
        let tick = clock.saturating_add(Duration::from_millis(left)).as_secs();
        self.pace.expect_last(self.seconds.last(tick));
    }
}

impl<'a, R> Faulty for TickBeat<'a, R> {
    ghost use Rattle.std.specs.Prelude.{min, false, None, option_map};
    ghost use Rattle.std.proofs.Common.{arith};
    ghost use Rattle.sd_model_outside.specs.Outside.{Object, Unknown, last_count};
    ghost use Rattle.sd_outside.specs.Intervals.{interval_view};

    ghost seen = { λ s. record {
      content = Unknown;
      faults = min s.faults last_count;
      opened_at = None;
      turns = min s.turns last_count;
      is_out = false;
      interval = option_map interval_view s.interval;
    } };

    ghost faults_fit = { λ s. omega arith };
}

impl<'a, R: Clock + Files> Beat for TickBeat<'a, R> {
    ghost use Rattle.std.proofs.Common.{arith};

    fn start(&mut self, interval: Interval) {
        self.interval = Some(interval);
        self.times = times_from(self.host, interval).ok();
        self.seconds = FlushSeconds::every(interval.ms);
        self.pace.start(interval.ms);
        self.stop.watch();
    }

    fn next(&mut self) -> Tick {
        match self.wait() {
            Ok(Some(due)) => {
                self.tell_tick(&due);
                self.times = Some(due.times);
                take_turn(&mut self.turns);
                let second = self.seconds.next(due.second);
                self.tell_last();
                Tick::At(second)
            }
            Ok(None) => {
                self.tell_stop();
                self.tell_last();
                Tick::End
            }
            Err(_) => {
                self.stop.set();
                fault(&mut self.faults);
                Tick::Failed
            }
        }
    }

    ghost turns_fit = { λ s. omega arith };
}
