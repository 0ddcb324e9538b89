//! A gate that counts the rounds that a worker begins.
use sd_outside::Gate;
use std::sync::atomic::AtomicU64;
use std::sync::atomic::Ordering::SeqCst;
use std::thread;

// The place before a round.
const BEFORE_ROUND: u8 = 6;

// After how many turns who waits gives up.
const TURNS: u32 = 100_000_000;

/// A gate that counts how often a worker passed the place before a round.
#[derive(Drop)]
pub struct CountGate {
    passed: AtomicU64,
}

impl CountGate {
    /// A gate that nobody has passed.
    pub fn new() -> CountGate {
        CountGate {
            passed: AtomicU64::new(0),
        }
    }

    /// How often it was passed.
    pub fn passed(&self) -> u64 {
        self.passed.load(SeqCst)
    }

    /// Waits until it was passed so often, and answers whether it was.
    pub fn wait_for(&self, count: u64) -> bool {
        for _ in 0..TURNS {
            if self.passed() >= count {
                return true;
            }
            thread::yield_now();
        }
        false
    }
}

impl Gate for CountGate {
    fn pass(&self, place: u8) {
        if place == BEFORE_ROUND {
            self.passed.fetch_add(1, SeqCst);
        }
    }
}
