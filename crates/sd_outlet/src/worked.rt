//! One text is one round of a backend, and rounds are counted.
ghost use Rattle.std.specs.Prelude.{◌≡◌, ℕ, List, [], ◌∷◌, ◌++◌, OnOk, OnErr};
ghost use Rattle.sd_model_outside.specs.Outside.{Object};
ghost use Rattle.sd_model_outside.specs.Uses.{AfterMark, HasMissed, Written};
ghost use Rattle.sd_outlet.specs.Worked.{HasWorked};

use sd_outside::{Backend, Failed, write_all};

/// How many texts were written whole, and in how many rounds the backend failed, each up to 2^64 - 1.
#[derive(Clone, Copy, Debug, PartialEq, Eq)]
pub struct Worked {
    pub written: u64,
    pub faults: u64,
}

impl Worked {
    /// The count of no rounds.
    pub(crate) fn none() -> Worked
        ensures { (old : Object) → HasWorked [] result old old }
    {
        Worked {
            written: 0,
            faults: 0,
        }
    }

    /// This count and a later one together.
    pub fn and(self, later: Worked) -> Worked
        ensures { (texts more : List (List ℕ)) (old mid new : Object)
            → HasWorked texts self old mid → HasWorked more later mid new → HasWorked (texts ++ more) result old new }
    {
        Worked {
            written: self.written.saturating_add(later.written),
            faults: self.faults.saturating_add(later.faults),
        }
    }

    /// Writes a text as one round, and counts it.
    pub(crate) fn write<B: Backend>(&mut self, back: &mut B, text: &[u8])
        ensures { (texts : List (List ℕ)) (first : Object) → HasWorked texts self.old first (B.seen back.old)
            → HasWorked (texts ++ text.now ∷ []) self.new first (B.seen back.new) }
    {
        let Ok(()) = round(back, text) else {
            self.faults = self.faults.saturating_add(1);
            return;
        };
        self.written = self.written.saturating_add(1);
    }
}

/// Gives a backend a text, in a list that is begun and ended. After the first call that fails it isn't called again.
///
/// # Errors
///
/// Where the backend failed.
fn round<B: Backend>(back: &mut B, text: &[u8]) -> Result<(), Failed>
    ensures ok { OnOk result (AfterMark Written text.now (B.seen back.old) (B.seen back.new)) }
    ensures failed { OnErr result (HasMissed text.now (B.seen back.old) (B.seen back.new)) }
{
    back.begin()?;
    write_all(back, text)?;
    back.finish()
}
