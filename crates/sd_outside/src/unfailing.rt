ghost use Rattle.std.specs.Prelude.{◌≡◌, IsOkAnd};
ghost use Rattle.sd_model_outside.specs.Outside.{Object, opened};
ghost use Rattle.sd_outside.specs.Places.{place_of};

use crate::address::Address;
use crate::opens::{Faulty, OpenRefusal, Opens};

/// An object that is opened, and never fails.
pub trait Unfailing {
    /// What is seen of it, but for its faults.
    ghost shown: { Self → Object };

    /// Notes where it is opened.
    fn note(&mut self, at: &Address)
        ensures { shown self.new ≡ opened (place_of at.now) (shown self.old) };
}

impl<T: Unfailing> Faulty for T {
    ghost use Rattle.std.proofs.Common.{arith};

    ghost seen = { λ s. record (T.shown s) { faults = 0 } };

    ghost faults_fit = { λ s. Prim.omega arith };
}

impl<T: Unfailing> Opens for T {
    fn open_at(&mut self, at: &Address) -> Result<(), OpenRefusal>
        ensures { IsOkAnd result (λ _. T.shown self.new ≡ opened (place_of at.now) (T.shown self.old)) }
    {
        self.note(at);
        Ok(())
    }
}
