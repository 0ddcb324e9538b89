ghost use Rattle.std.specs.Prelude.{◌≡◌, OnOk, OnErr};
ghost use Rattle.sd_model_outside.specs.Outside.{HasFailed, telling, with_packet};

use crate::opens::{Failed, Opens};

/// An object that packets are sent on. It tells the packets that were sent, or nothing.
pub trait Wire: Opens {
    /// Sends a packet, whole.
    ///
    /// # Errors
    ///
    /// `Failed` where the wire failed. Then nothing was sent.
    fn send(&mut self, packet: &[u8]) -> Result<(), Failed>
        ensures ok { OnOk result (Self.seen self.new ≡ telling (with_packet (Self.seen self.old).content packet.now) (Self.seen self.old)) }
        ensures failed { OnErr result (HasFailed (Self.seen self.old) (Self.seen self.new)) };
}
