ghost use Rattle.std.specs.Prelude.{◌≡◌, ◌≤◌, ◌^◌};
ghost use Rattle.sd_model_outside.specs.Backend.{Backend, at_backend};
ghost use Rattle.sd_model_outside.specs.Uses.{fault_of};
ghost use Rattle.sd_model_record.specs.Desk.{counted as counted_up};
ghost use Rattle.sd_outside.specs.Backends.{at};
ghost use Rattle.sd_desk.specs.Marks.{marks_of};

use crate::count::counted;
use sd_outside::{BackendKind, PerBackend, VisitBackend};

/// How a backend took part in a flush.
#[derive(Clone, Copy, Debug, PartialEq, Eq)]
pub enum Mark {
    /// It isn't used.
    NotUsed,
    /// It was given the whole text.
    Written,
    /// A call on it failed, and it wasn't called again in this flush.
    Fault,
}

/// How each backend took part in a flush.
pub type RoundMarks = PerBackend<Mark>;

/// A count of faults that the marks of a flush raise.
#[derive(Drop)]
struct Counting<'m> {
    marks: &'m RoundMarks,
}

impl VisitBackend<u64> for Counting<'_> {
    ghost use Rattle.std.specs.Prelude.{◌≡◌, ◌≤◌, ◌^◌, ⊤};
    ghost use Rattle.sd_model_outside.specs.Backend.{at_backend};
    ghost use Rattle.sd_model_outside.specs.Uses.{fault_of};
    ghost use Rattle.sd_model_record.specs.Desk.{Marks, counted as counted_up};
    ghost use Rattle.sd_desk.specs.Marks.{marks_of};

    ghost Fixed = { Marks };

    ghost fixed = { λ counting. marks_of counting.marks.now };

    ghost allows = { λ marks n. ⊤ };

    ghost visits = { λ marks b old new. (new ≡ counted_up old (fault_of (at_backend marks b))) × (new ≤ 2 ^ 63) };

    fn visit(&mut self, kind: BackendKind, faults: &mut u64) {
        *faults = counted(*faults, self.marks.at(kind).faults());
    }
}

/// Raises each backend's count of faults by what its mark counts for.
pub(crate) fn count_faults(faults: &mut PerBackend<u64>, marks: &RoundMarks)
    ensures counts { (b : Backend) → at faults.new b ≡ counted_up (at faults.old b) (fault_of (at_backend (marks_of marks.now) b)) }
    ensures bound { (b : Backend) → at faults.new b ≤ 2 ^ 63 }
{
    faults.visit_each(&mut Counting { marks });
}

impl Mark {
    ghost use Rattle.sd_model_outside.specs.Uses.{fault_of};
    ghost use Rattle.sd_desk.specs.Marks.{mark_of};

    /// How many faults it counts for.
    pub(crate) fn faults(self) -> u64
        ensures { result ≡ fault_of (mark_of self) }
    {
        match self {
            Mark::NotUsed | Mark::Written => 0,
            Mark::Fault => 1,
        }
    }
}
