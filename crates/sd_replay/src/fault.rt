ghost use Rattle.std.specs.Prelude.{◌≡◌};
ghost use Rattle.sd_model_replay.specs.AccountingTheorem.{Faulted};
ghost use Rattle.sd_script.specs.Flaws.{flaw_of};
ghost use Rattle.sd_replay.specs.Ends.{fault_end};

use sd_script::{Flaw, ScriptFault};

/// A flaw at its place.
pub(crate) fn fault_at(flaw: Flaw, at: u64) -> ScriptFault
    ensures { fault_end result ≡ Faulted at (flaw_of flaw) }
{
    match flaw {
        Flaw::Word => ScriptFault::Word { at },
        Flaw::Length => ScriptFault::Length { at },
        Flaw::Truncated => ScriptFault::Truncated { at },
    }
}
