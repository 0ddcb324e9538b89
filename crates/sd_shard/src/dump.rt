ghost use Rattle.std.specs.Prelude.{◌≡◌};
ghost use Rattle.std.specs.List.Sorted.{IsPermutation, IsSortedByKey};
ghost use Rattle.std.specs.Ordering.{nat_cmp};
ghost use Rattle.std.specs.Cmp.Lexicographic.{slice_cmp};
ghost use Rattle.sd_shard.specs.Dump.{rows_of};

use crate::listed::Listed;
use sd_decimal::Sum;
use sd_key::Key;

/// A row as a dump tells it: a counter's count, the sum of a timer's values, a gauge's value, or how many members of a
/// set differ, as whole units. Rows compare by their keys first.
#[derive(Clone, Debug, PartialEq, Eq, PartialOrd, Ord, Drop)]
pub struct DumpRow {
    pub key: Key,
    pub samples: u64,
    pub amount: Sum,
}

/// Rows of dumps, in room that is taken when it is opened.
pub type Dump = Listed<DumpRow>;

impl Listed<DumpRow> {
    /// Puts them into the order of the bytes of their keys.
    pub fn sort(&mut self)
        ensures permutation { IsPermutation (rows_of self.old) (rows_of self.new) }
        ensures sorted { IsSortedByKey (λ row. row.key) (slice_cmp nat_cmp) (rows_of self.new) }
        ensures room { self.new.room ≡ self.old.room }
    {
        self.items.sort_unstable();
    }
}
