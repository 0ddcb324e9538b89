use std::alloc::{AllocError, AllocFailed};
use std::error::Error;
use std::fmt;

/// Why a case has no answer.
#[derive(Clone, Copy, Debug, PartialEq, Eq)]
pub enum Refusal {
    /// No call has this name and so many arguments.
    UnknownCall,
    /// An argument is of no form that the call takes.
    Malformed,
    /// What the call requires isn't met.
    Condition,
    /// No memory is left.
    OutOfMemory,
}

impl From<AllocError> for Refusal {
    ghost use Rattle.std.specs.Prelude.{◌≡◌};
    ghost use Rattle.sd_case.specs.declared.refusal.Refusal.TheVariants.{OutOfMemory};

    ghost from_gives = { λ _ refusal. refusal ≡ OutOfMemory };

    fn from(_error: AllocError) -> Refusal {
        Refusal::OutOfMemory
    }
}

impl<T: Drop> From<AllocFailed<T>> for Refusal {
    ghost use Rattle.std.specs.Prelude.{◌≡◌};
    ghost use Rattle.sd_case.specs.declared.refusal.Refusal.TheVariants.{OutOfMemory};

    ghost from_gives = { λ _ refusal. refusal ≡ OutOfMemory };

    fn from(_error: AllocFailed<T>) -> Refusal {
        Refusal::OutOfMemory
    }
}

impl fmt::Display for Refusal {
    fn fmt<W: fmt::Write>(&self, f: &mut fmt::Formatter<W>) -> fmt::Result {
        match self {
            Refusal::UnknownCall => write!(f, "unknown call"),
            Refusal::Malformed => write!(f, "malformed argument"),
            Refusal::Condition => write!(f, "condition"),
            Refusal::OutOfMemory => write!(f, "out of memory"),
        }
    }
}

impl Error for Refusal {}
