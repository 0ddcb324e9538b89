use log::LevelFilter;
use sd_case::Answer;
use sd_case_net::{step, stop_name};
use sd_net::{Pace, RunLog, Stop, SystemClock, TickBeat};
use sd_outside::{Beat, Clock, Interval, Tick};
use std::thread::{Threads, join, sleep};
use std::time::{self, Duration};
use std::{fs, io};

/// The interval of the beat that ticks, in milliseconds.
const INTERVAL: u32 = 100;

/// So many milliseconds, counted from the start on.
fn every(ms: u32) -> Interval {
    Interval {
        ms,
        is_aligned: false,
    }
}

/// What a beat answered.
fn tick_text(tick: Tick) -> &'static str {
    match tick {
        Tick::At(_) => " a tick",
        Tick::End => " the end",
        Tick::Failed => " failed",
    }
}

/// Whether a beat told the others to stop.
fn reported_text(stop: &Stop) -> &'static str {
    if stop.is_set() {
        ", the others are told,"
    } else {
        ", the others aren't told,"
    }
}

/// How many milliseconds have gone since a moment.
fn millis_since(rt: &HostRuntime, from: Duration) -> io::Result<u128> {
    Ok(time::Clock::monotonic(rt)?.saturating_sub(from).as_millis())
}

/// Ticks in time, and late ones.
fn ticks<'a>(rt: &'a HostRuntime, stop: &'a Stop, out: &mut Answer) -> io::Result<()> {
    let pace = Pace::new();
    let clock = SystemClock::new(rt, &pace);
    let log = RunLog::new(rt, LevelFilter::Off);
    let mut beat = TickBeat::new(rt, stop, &pace, &log);
    let before = time::Clock::monotonic(rt)?;
    beat.start(every(INTERVAL));
    let started = time::Clock::monotonic(rt)?;
    let interval = u128::from(INTERVAL);
    step(
        out,
        "three ticks, each not before its multiple of the interval",
    );
    let mut least = interval;
    for _ in 0..3 {
        let earliest = clock.now();
        let tick = beat.next();
        let latest = clock.now();
        out.text(tick_text(tick));
        let is_due = millis_since(rt, before)? >= least;
        out.text(if is_due { " in time," } else { " too early," });
        let is_now = matches!(tick, Tick::At(second) if earliest <= second && second <= latest);
        out.text(if is_now {
            " of now;"
        } else {
            " of another second;"
        });
        least = least.saturating_add(interval);
    }
    step(
        out,
        "two ticks after two and a half intervals of sleep, the second at a multiple of its own",
    );
    sleep(rt, Duration::from_millis(250));
    let multiple = millis_since(rt, started)? / interval;
    out.text(tick_text(beat.next()));
    out.text(",");
    out.text(tick_text(beat.next()));
    let least = multiple.saturating_add(1).saturating_mul(interval);
    let is_due = millis_since(rt, before)? >= least;
    out.text(if is_due { " in time" } else { " too early" });
    step(out, "once it is to stop");
    stop.set();
    out.text(tick_text(beat.next()));
    Ok(())
}

/// A beat that isn't started.
fn unstarted<'a>(rt: &'a HostRuntime, stop: &'a Stop, out: &mut Answer) {
    let pace = Pace::new();
    let log = RunLog::new(rt, LevelFilter::Off);
    let mut beat = TickBeat::new(rt, stop, &pace, &log);
    step(out, "one that isn't started, twice");
    out.text(tick_text(beat.next()));
    out.text(reported_text(stop));
    out.text(tick_text(beat.next()));
    out.count("; faults ", beat.faults());
}

/// What a beat answers while its stop file is made beside it, and whether that was made.
fn next_together<'a>(
    threads: &impl Threads,
    rt: &'a HostRuntime,
    stop: &'a Stop,
    name: &str,
) -> (bool, Tick) {
    let pace = Pace::new();
    let log = RunLog::new(rt, LevelFilter::Off);
    let mut beat = TickBeat::new(rt, stop, &pace, &log);
    beat.start(every(10_000));
    join(
        threads,
        || fs::write(rt, name, b"").is_ok(),
        move || {
            let mut beat = beat;
            beat.next()
        },
    )
}

/// A stop file that appears while a beat waits.
fn stop_file(threads: &impl Threads, rt: &HostRuntime, out: &mut Answer) -> io::Result<()> {
    let stop = Stop::new(Some(stop_name(rt)?));
    let name = stop_name(rt)?;
    let name = name.as_str();
    step(
        out,
        "a stop file that appears while it waits for a tick in ten seconds",
    );
    let before = time::Clock::monotonic(rt)?;
    let (made, tick) = next_together(threads, rt, &stop, name);
    let is_early = millis_since(rt, before)? < 5_000;
    let removed = fs::remove_file(rt, name).is_ok();
    out.text(if made && removed {
        " made and removed,"
    } else {
        " no file,"
    });
    out.text(tick_text(tick));
    out.text(reported_text(&stop));
    out.text(if is_early { " at once" } else { " late" });
    Ok(())
}

pub(crate) fn run(threads: &impl Threads, rt: &HostRuntime, out: &mut Answer) -> io::Result<()> {
    out.text("\nbeats");
    unstarted(rt, &Stop::new(None), out);
    ticks(rt, &Stop::new(None), out)?;
    stop_file(threads, rt, out)
}
