ghost use Rattle.std.specs.Prelude.{◌≡◌, ◌*◌, min};

/// How long something is waited for before other things are looked at, in milliseconds: where it didn't come, twice as long the next
/// time, up to a limit, so that who waits long is rarely awake.
#[derive(Clone, Copy, Debug, PartialEq, Eq)]
pub struct Backoff {
    /// How long it is waited for next.
    pub wait: u64,
    /// How long it is waited for at first.
    pub least: u64,
    /// How long it is waited for at most.
    pub most: u64,
}

impl Backoff {
    /// One between two limits, at the first of them.
    pub fn between(least: u64, most: u64) -> Backoff
        ensures wait { result.wait ≡ least }
        ensures least { result.least ≡ least }
        ensures most { result.most ≡ most }
    {
        Backoff {
            wait: least,
            least,
            most,
        }
    }

    /// It didn't come.
    pub fn grow(&mut self)
        ensures wait { self.new.wait ≡ min (self.old.wait * 2) self.old.most }
        ensures least { self.new.least ≡ self.old.least }
        ensures most { self.new.most ≡ self.old.most }
    {
        self.wait = if self.wait < self.most / 2 + self.most % 2 {
            self.wait * 2
        } else {
            self.most
        };
    }

    /// It came.
    pub fn reset(&mut self)
        ensures wait { self.new.wait ≡ self.old.least }
        ensures least { self.new.least ≡ self.old.least }
        ensures most { self.new.most ≡ self.old.most }
    {
        self.wait = self.least;
    }
}
