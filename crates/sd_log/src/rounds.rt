use crate::run_log::RunLog;
use sd_edge::Streak;
use sd_event::{Link, link_down, link_up};
use std::fmt::Display;

/// How the rounds of a link went, of which it tells the log: a round is what is delivered at once, a flush or a datagram.
#[derive(Drop)]
pub struct Rounds {
    link: Link,
    streak: Streak,
    has_failed: bool,
}

impl Rounds {
    /// Those of a link that has delivered nothing.
    pub fn of(link: Link) -> Rounds {
        Rounds {
            link,
            streak: Streak::new(),
            has_failed: false,
        }
    }

    /// A round begins.
    pub fn begin(&mut self) {
        self.has_failed = false;
    }

    /// The round failed.
    pub fn fail<D: Display>(&mut self, log: &RunLog<'_>, address: &[u8], reason: &D) {
        if self.has_failed {
            return;
        }
        self.has_failed = true;
        if let Some(times) = self.streak.fail() {
            link_down(log, self.link, address, reason, times);
        }
    }

    /// Whether a round is to be told that went well.
    pub fn is_down(&self) -> bool {
        self.streak.failures > 0
    }

    /// The round ended, well unless it has failed.
    pub fn end(&mut self, log: &RunLog<'_>, address: &[u8]) {
        if self.has_failed {
            return;
        }
        if let Some(missed) = self.streak.recover() {
            link_up(log, self.link, address, missed);
        }
    }
}
