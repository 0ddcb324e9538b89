use crate::moments::now;
use std::fs::{Files, exists};
use std::sync::OnceLock;
use std::sync::atomic::{AtomicBool, Ordering};
use std::time::Clock;

/// How the parts of a program are told to stop: by a flag that all of them look at, and by a file whose being there sets it.
#[derive(Drop)]
pub struct Stop {
    is_set: AtomicBool,
    file: Option<String>,
    /// Whether a part looks for the file, so that the others need not.
    is_watched: AtomicBool,
    seen_at: OnceLock<u64>,
}

impl Stop {
    /// A flag that isn't set. Without a name of a file the parts alone set it.
    pub fn new(file: Option<String>) -> Stop {
        Stop {
            is_set: AtomicBool::new(false),
            file,
            is_watched: AtomicBool::new(false),
            seen_at: OnceLock::new(),
        }
    }

    /// Whether the flag is set.
    pub fn is_set(&self) -> bool {
        self.is_set.load(Ordering::SeqCst)
    }

    /// Sets the flag.
    pub fn set(&self) {
        self.is_set.store(true, Ordering::SeqCst);
    }

    /// From now on the caller looks for the file, several times a second.
    pub fn watch(&self) {
        self.is_watched.store(true, Ordering::SeqCst);
    }

    /// Looks for the file, where no other part does, and answers whether the flag is set.
    pub fn look_unwatched(&self, host: &impl Files) -> bool {
        if self.is_watched.load(Ordering::SeqCst) {
            self.is_set()
        } else {
            self.look(host)
        }
    }

    /// Looks for the file, and answers whether the flag is set.
    pub(crate) fn look(&self, host: &impl Files) -> bool {
        if self.is_set() {
            return true;
        }
        let Some(name) = &self.file else {
            return false;
        };
        let is_there = matches!(exists(host, name.as_str()), Ok(true));
        if is_there {
            self.set();
        }
        is_there
    }

    /// Looks for the file, and answers when the flag was first seen set, in milliseconds of the clock that never goes back.
    pub fn seen_at(&self, host: &(impl Files + Clock)) -> Option<u64> {
        if !self.look(host) {
            return None;
        }
        if let Some(moment) = self.seen_at.get() {
            return Some(*moment);
        }
        let moment = now(host).ok()?;
        // another part may have noted it just now, at about the same moment
        let _ = self.seen_at.try_set(moment);
        Some(moment)
    }
}
