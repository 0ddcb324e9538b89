ghost use Rattle.std.specs.Prelude.{◌≡◌, ◌≤◌};
ghost use Rattle.sd_outside.specs.Turns.{raised};

use crate::opens::{Failed, OpenRefusal};

/// Counts a fault of an object, up to 2^64 - 1, and answers that it failed.
pub fn fault(faults: &mut u64) -> Failed
    ensures counted { faults.new ≡ raised faults.old }
    ensures stays { faults.old ≤ faults.new }
{
    *faults = faults.saturating_add(1);
    Failed
}

/// Counts a fault of an object, up to 2^64 - 1, and answers that it wasn't opened.
pub fn opening_fault(faults: &mut u64) -> OpenRefusal
    ensures counted { faults.new ≡ raised faults.old }
    ensures stays { faults.old ≤ faults.new }
    ensures refusal { result ≡ OpenRefusal.Failed }
{
    fault(faults);
    OpenRefusal::Failed
}
