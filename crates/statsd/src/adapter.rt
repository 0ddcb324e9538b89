//! What the program's own adapters are made of.
ghost use Rattle.std.specs.Prelude.{◌≡◌, ◌↔◌, IfOk, IsErr, IsErrOf, OnOk, Some};
ghost use Rattle.sd_model_outside.specs.Outside.{HasFailed, opened};
ghost use Rattle.sd_outside.specs.Places.{place_of};
ghost use Rattle.statsd.specs.Adapter.{seen_of};

use crate::shared::Shared;
use sd_outside::{Address, Faulty, OpenRefusal, opening_fault};
use std::io::{Error, ErrorKind};

/// An object of the system: what stands for it once it is opened, where it was last opened, and how often it failed. It tells
/// nothing of its content.
#[derive(Drop)]
pub(crate) struct Adapter<'a, X, T> {
    pub rt: &'a HostRuntime,
    pub threads: &'a X,
    pub shared: &'a Shared<'a>,
    pub object: Option<T>,
    pub faults: u64,
    opened_at: Option<Address>,
}

impl<'a, X, T: Drop> Adapter<'a, X, T> {
    /// It is opened later.
    pub(crate) fn new(
        rt: &'a HostRuntime,
        threads: &'a X,
        shared: &'a Shared<'a>,
    ) -> Adapter<'a, X, T> {
        Adapter {
            rt,
            threads,
            shared,
            object: None,
            faults: 0,
            opened_at: None,
        }
    }

    /// Another one beside it, which is opened later.
    pub(crate) fn another(&self) -> Adapter<'a, X, T> {
        Adapter::new(self.rt, self.threads, self.shared)
    }

    /// Keeps what was opened at an address, or counts that it wasn't.
    ///
    /// # Errors
    ///
    /// Why it wasn't opened. Want of memory isn't counted.
    pub(crate) fn keep(
        &mut self,
        at: &Address,
        object: Result<T, OpenRefusal>,
    ) -> Result<(), OpenRefusal>
        ensures ok { OnOk result (seen_of self.new ≡ opened (place_of at.now) (seen_of self.old)) }
        ensures failed { IsErrOf result OpenRefusal.Failed → HasFailed (seen_of self.old) (seen_of self.new) }
        ensures out_of_memory { IsErrOf result OpenRefusal.OutOfMemory → seen_of self.new ≡ seen_of self.old }
        ensures cause { IsErr result ↔ IsErr object }
        ensures kept { IfOk object (λ made. self.new.object ≡ Some made) }
    {
        match object {
            Ok(object) => {
                self.object = Some(object);
                self.opened_at = Some(at.copied());
                Ok(())
            }
            Err(OpenRefusal::OutOfMemory) => Err(OpenRefusal::OutOfMemory),
            Err(OpenRefusal::Failed) => Err(opening_fault(&mut self.faults)),
        }
    }
}

impl<'a, X, T> Faulty for Adapter<'a, X, T> {
    ghost use Rattle.std.proofs.Common.{arith};
    ghost use Rattle.statsd.specs.Adapter.{seen_of};

    ghost seen = { seen_of };

    ghost faults_fit = { λ s. omega arith };
}

/// Why the system opened nothing, which the log is told.
pub(crate) fn refusal_of(shared: &Shared<'_>, error: Error) -> OpenRefusal {
    shared.log.note_reason(&error);
    if error.kind() == ErrorKind::OutOfMemory {
        OpenRefusal::OutOfMemory
    } else {
        OpenRefusal::Failed
    }
}
