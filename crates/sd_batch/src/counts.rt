ghost use Rattle.std.specs.Prelude.{◌≡◌, ◌+◌, ◌<◌, None};
ghost use Rattle.sd_model_shard.specs.Shard.{Answered};
ghost use Rattle.sd_model_shard.specs.History.{dropped_in};
ghost use Rattle.sd_law_shard.specs.Sums.{taken_in};
ghost use Rattle.sd_shard.specs.Shard.{placed_of};

use sd_shard::{Cause, Placed};

/// The first sample of several that was dropped: how many were taken before it, and why it wasn't.
#[derive(Clone, Copy, Debug, PartialEq, Eq)]
pub struct FirstDrop {
    pub before: u64,
    pub cause: Cause,
}

/// How many samples were taken, and dropped, with the first of those, of which no clause speaks.
#[derive(Clone, Copy, Debug, PartialEq, Eq)]
pub struct Counts {
    pub taken: u64,
    pub dropped: u64,
    pub first_drop: Option<FirstDrop>,
}

impl Counts {
    /// None was.
    pub fn none() -> Counts
        ensures { result ≡ record { taken = 0; dropped = 0; first_drop = None } }
    {
        Counts {
            taken: 0,
            dropped: 0,
            first_drop: None,
        }
    }

    // Counts one more.
    pub(crate) fn note(&mut self, placed: Placed)
        requires few { self.old.taken + self.old.dropped < 65536 }
        ensures taken { self.new.taken ≡ self.old.taken + taken_in (Answered (placed_of placed)) }
        ensures dropped { self.new.dropped ≡ self.old.dropped + dropped_in (Answered (placed_of placed)) }
        ensures one { self.new.taken + self.new.dropped ≡ self.old.taken + self.old.dropped + 1 }
    {
        match placed {
            Placed::Taken { .. } => self.taken += 1,
            Placed::Dropped(cause) => {
                self.first_drop = self.first_drop.or(Some(FirstDrop {
                    before: self.taken,
                    cause,
                }));
                self.dropped += 1;
            }
        }
    }
}
