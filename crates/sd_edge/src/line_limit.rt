ghost use Rattle.std.specs.Prelude.{◌≡◌, []};
ghost use Rattle.sd_edge.specs.Telling.{may_tell, moments_after, suppressed_after};

use arrayvec::ArrayVec;

/// How many lines are told in a second at most.
const MOST_LINES: usize = 20;

/// How long a second is, in milliseconds.
const SECOND: u64 = 1_000;

/// Which lines of a log are told, so that in no second there are more than twenty: the moments of the last ones, in milliseconds of
/// a clock that never goes back, from the oldest on, and how many lines were left out since they were last counted.
#[derive(Clone, Debug, Drop)]
pub struct LineLimit {
    pub logged: ArrayVec<u64, 20>,
    pub suppressed: u64,
}

impl LineLimit {
    /// None was told yet.
    pub fn new() -> LineLimit
        ensures logged { result.logged.items ≡ [] }
        ensures suppressed { result.suppressed ≡ 0 }
    {
        LineLimit {
            logged: ArrayVec::new(),
            suppressed: 0,
        }
    }

    /// Whether a line that comes at this moment is told. One that isn't is counted.
    pub fn pass(&mut self, now: u64) -> bool
        ensures logged { self.new.logged.items ≡ moments_after now self.old.logged.items }
        ensures suppressed { self.new.suppressed ≡ suppressed_after now self.old.logged.items self.old.suppressed }
        ensures answer { result ≡ may_tell now self.old.logged.items }
    {
        if self.logged.len() < MOST_LINES {
            self.logged.push(now);
            return true;
        }
        if now.saturating_sub(self.logged[0]) < SECOND {
            self.suppressed = self.suppressed.saturating_add(1);
            return false;
        }
        self.logged.remove(0);
        self.logged.push(now);
        true
    }

    /// How many lines were left out since this was asked last.
    pub fn take_suppressed(&mut self) -> u64
        ensures answer { result ≡ self.old.suppressed }
        ensures suppressed { self.new.suppressed ≡ 0 }
        ensures logged { self.new.logged ≡ self.old.logged }
    {
        let suppressed = self.suppressed;
        self.suppressed = 0;
        suppressed
    }
}
