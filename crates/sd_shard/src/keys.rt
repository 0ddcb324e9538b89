ghost use Rattle.std.specs.Prelude.{◌≡◌};
ghost use Rattle.std.specs.List.Sorted.{IsPermutation, IsSorted};
ghost use Rattle.std.specs.Ordering.{nat_cmp};
ghost use Rattle.std.specs.Cmp.Lexicographic.{slice_cmp};

use crate::listed::Listed;
use sd_key::Key;

/// Keys, in room that is taken when they are opened.
pub type Keys = Listed<Key>;

impl Listed<Key> {
    /// Puts them into the order of their bytes.
    pub fn sort(&mut self)
        ensures permutation { IsPermutation self.old.items self.new.items }
        ensures sorted { IsSorted (slice_cmp nat_cmp) self.new.items }
        ensures room { self.new.room ≡ self.old.room }
    {
        self.items.sort_unstable();
    }
}
