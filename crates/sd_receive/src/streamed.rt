ghost use Rattle.std.specs.Prelude.{◌≡◌};

use crate::account::Account;
use sd_desk::Tally;

/// How the reading of a stream ended.
#[derive(Clone, Copy, Debug, PartialEq, Eq)]
pub enum StreamEnd {
    /// The source was at its end.
    End,
    /// The source failed, and its count of faults rose.
    Failed,
    /// The source was read so often, which is the most, and gave a byte or more each time.
    Worn { turns: u64 },
}

/// What the reading of a stream did: how it ended, what its lines count for, and how many of their samples were taken. Each
/// number stops at 2^63.
#[derive(Clone, Copy, Debug, PartialEq, Eq)]
pub struct Streamed {
    pub ended: StreamEnd,
    pub tally: Tally,
    pub taken: u64,
}

impl Streamed {
    // A stream that ended so, once its lines came to this.
    pub(crate) fn of(ended: StreamEnd, account: Account) -> Streamed
        ensures { result ≡ record { ended = ended; tally = account.tally; taken = account.taken } }
    {
        Streamed {
            ended,
            tally: account.tally,
            taken: account.taken,
        }
    }
}
