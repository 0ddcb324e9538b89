//! Threads that the system refuses are noticed before anything is opened.
ghost use Rattle.std.specs.Prelude.{◌≤◌};

use crate::proxy_opening::has_port;
use crate::telling::tell_too_few;
use log::Log;
use sd_config::Settings;
use std::sync::atomic::{AtomicBool, AtomicUsize, Ordering};
use std::thread::{Threads, for_each_mut, sleep};
use std::time::{Clock, Duration};

/// How often a thread looks whether the others are there: for two seconds.
const MOST_LOOKS: u32 = 2000;

/// Milliseconds from one look to the next.
const NAP_MS: u64 = 1;

/// How many threads are the most that are asked for.
const MOST_THREADS: usize = 32;

/// Where threads meet: how many have come, and whether one has waited in vain.
#[derive(Drop)]
struct Meeting {
    wanted: usize,
    came: AtomicUsize,
    gave_up: AtomicBool,
}

impl Meeting {
    /// Waits until all are there, two seconds at most, and answers whether they are.
    fn attend<X: Clock>(&self, rt: &X) -> bool {
        self.came.fetch_add(1, Ordering::SeqCst);
        for _ in 0..MOST_LOOKS {
            if self.came.load(Ordering::SeqCst) >= self.wanted {
                return true;
            }
            if self.gave_up.load(Ordering::SeqCst) {
                return false;
            }
            sleep(rt, Duration::from_millis(NAP_MS));
        }
        self.gave_up.store(true, Ordering::SeqCst);
        false
    }
}

/// Whether so many threads, 32 at most, run side by side: each is started, and waits for the others, two seconds at most.
fn threads_meet<X: Threads + Clock + Sync>(rt: &X, wanted: usize) -> bool {
    let meeting = Meeting {
        wanted,
        came: AtomicUsize::new(0),
        gave_up: AtomicBool::new(false),
    };
    let mut met = [false; MOST_THREADS];
    let Some(seats) = met.get_mut(..wanted) else {
        return false;
    };
    for_each_mut(
        rt,
        seats,
        wanted.max(1),
        &|_, is_met: &mut bool| *is_met = meeting.attend(rt),
    );
    seats.iter().all(|is_met| *is_met)
}

/// How many threads a server by these settings works with.
pub fn threads_of_server(settings: &Settings) -> usize {
    let lines = usize::from(settings.tcp_port() > 0);
    let outlets = if settings.outlets() > 0 { 2 } else { 0 };
    2 + lines + outlets + settings.receivers() as usize
}

/// How many threads a proxy by these settings works with.
pub fn threads_of_proxy(settings: &Settings) -> usize {
    let lines = usize::from(settings.tcp_port() > 0);
    1 + lines + usize::from(has_port(settings)) + settings.receivers() as usize
}

/// Whether the system gives so many threads, 32 at most, which is told where it doesn't. It waits for two seconds at most.
pub fn has_threads<X: Threads + Clock + Sync, L: Log>(rt: &X, log: &L, wanted: usize) -> bool {
    let is_met = threads_meet(rt, wanted);
    if !is_met {
        tell_too_few(log);
    }
    is_met
}
