ghost use Rattle.std.specs.Prelude.{OnOk, OnErr, Some, None};
ghost use Rattle.sd_model_outside.specs.Uses.{HasAsked};
ghost use Rattle.sd_outside.specs.Places.{place_of};

use crate::address::Address;
use crate::opens::{Failed, Faulty};
use arrayvec::ArrayVec;

/// An object that asks servers how they are. It tells the replies that it has left and the questions that were asked, or
/// nothing.
pub trait Probe: Faulty {
    /// Asks the server at an address, and puts the first line of its reply into `out`, cut to 1,024 bytes.
    ///
    /// # Errors
    ///
    /// `Failed` where the probe failed. Then it took no reply.
    fn ask(&mut self, at: &Address, out: &mut ArrayVec<u8, 1024>) -> Result<(), Failed>
        ensures ok { OnOk result (HasAsked (place_of at.now) (Some out.new.items) (Self.seen self.old) (Self.seen self.new)) }
        ensures failed { OnErr result (HasAsked (place_of at.now) None (Self.seen self.old) (Self.seen self.new)) };
}
