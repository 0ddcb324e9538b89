ghost use Rattle.std.specs.Prelude.{◌≡◌};
ghost use Rattle.sd_model_record.specs.Desk.{add_tally, counted as counted_up, no_tally};
ghost use Rattle.sd_desk.specs.Tally.{tally_of};

use crate::receiving::counted;
use sd_desk::Tally;

/// What lines of streams came to: what they count for, and how many of their samples were taken. Each number stops at 2^63.
#[derive(Clone, Copy, Debug, PartialEq, Eq)]
pub(crate) struct Account {
    pub tally: Tally,
    pub taken: u64,
}

impl Account {
    /// No line came.
    pub fn none() -> Account
        ensures tally { tally_of result.tally ≡ no_tally }
        ensures taken { result.taken ≡ 0 }
    {
        Account {
            tally: Tally::none(),
            taken: 0,
        }
    }

    /// Two accounts in one.
    pub fn and(self, more: Account) -> Account
        ensures tally { tally_of result.tally ≡ add_tally (tally_of self.tally) (tally_of more.tally) }
        ensures taken { result.taken ≡ counted_up self.taken more.taken }
    {
        Account {
            tally: self.tally.and(more.tally),
            taken: counted(self.taken, more.taken),
        }
    }
}
