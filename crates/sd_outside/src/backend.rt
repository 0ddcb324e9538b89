ghost use Rattle.std.specs.Prelude.{◌≡◌, OnOk, OnErr};
ghost use Rattle.sd_model_outside.specs.Outside.{HasFailed, begun, ended, telling};

use crate::backends::PerBackend;
use crate::opens::{Failed, Opens};
use crate::sink::Sink;

/// A sink that is given one list of bytes for each round.
pub trait Backend: Sink + Opens {
    /// Starts the next round's list. A list that is open stays as it is.
    ///
    /// # Errors
    ///
    /// `Failed` where the backend failed. Then no list was started.
    fn begin(&mut self) -> Result<(), Failed>
        ensures ok { OnOk result (Self.seen self.new ≡ telling (begun (Self.seen self.old).content) (Self.seen self.old)) }
        ensures failed { OnErr result (HasFailed (Self.seen self.old) (Self.seen self.new)) };

    /// Ends the last list. Where none is open it changes nothing.
    ///
    /// # Errors
    ///
    /// `Failed` where the backend failed. Then the list wasn't ended.
    fn finish(&mut self) -> Result<(), Failed>
        ensures ok { OnOk result (Self.seen self.new ≡ telling (ended (Self.seen self.old).content) (Self.seen self.old)) }
        ensures failed { OnErr result (HasFailed (Self.seen self.old) (Self.seen self.new)) };
}

/// A backend, and whether it is used.
#[derive(Clone, Copy, Debug, Drop)]
pub struct Back<B> {
    pub object: B,
    pub is_used: bool,
}

/// The backends that a record is written to.
pub type Backs<B> = PerBackend<Back<B>>;
