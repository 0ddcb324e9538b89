ghost use Rattle.std.specs.Prelude.{◌≡◌, ◌≤◌, ◌^◌};

use crate::count::counted;

/// What was counted since the last flush: datagrams, pieces good and bad, bad pieces, and dropped
/// samples. Each count is at most 2^63.
#[derive(Clone, Copy, Debug, PartialEq, Eq)]
pub struct Tally {
    pub packets: u64,
    pub lines: u64,
    pub bad: u64,
    pub dropped: u64,
    ghost few_packets: { packets ≤ 2 ^ 63 },
    ghost few_lines: { lines ≤ 2 ^ 63 },
    ghost few_bad: { bad ≤ 2 ^ 63 },
    ghost few_dropped: { dropped ≤ 2 ^ 63 },
}

impl Tally {
    ghost use Rattle.sd_model_record.specs.Desk.{add_tally, no_tally as nothing};
    ghost use Rattle.sd_desk.specs.Tally.{tally_of};

    /// Nothing was counted.
    pub fn none() -> Tally
        ensures { tally_of result ≡ nothing }
    {
        Tally {
            packets: 0,
            lines: 0,
            bad: 0,
            dropped: 0,
        }
    }

    /// Two tallies in one. Each count stops at 2^63.
    pub fn and(self, more: Tally) -> Tally
        ensures { tally_of result ≡ add_tally (tally_of self) (tally_of more) }
    {
        Tally {
            packets: counted(self.packets, more.packets),
            lines: counted(self.lines, more.lines),
            bad: counted(self.bad, more.bad),
            dropped: counted(self.dropped, more.dropped),
        }
    }
}
