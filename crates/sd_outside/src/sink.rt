ghost use Rattle.std.specs.Prelude.{◌≡◌, ◌<◌, ◌≤◌, length, take, IfOk, OnOk, OnErr};
ghost use Rattle.sd_model_outside.specs.Outside.{HasFailed, HasFailedBehind, given};
ghost use Rattle.sd_outside.specs.Turns.{FitsLastCount};

use crate::opens::{Failed, Faulty};

/// A text couldn't be written whole, since its sink failed.
#[derive(Clone, Copy, Debug, PartialEq, Eq)]
pub struct WriteFault;

/// An object that bytes are written to. It tells what it was given, or nothing.
pub trait Sink: Faulty {
    /// Appends bytes from the start of those given, and answers their number.
    ///
    /// # Errors
    ///
    /// `Failed` where the sink failed. Then nothing was appended.
    fn write(&mut self, bytes: &[u8]) -> Result<usize, Failed>
        requires { 0 < length bytes.now }
        ensures count { IfOk result (λ n. (0 < n) × (n ≤ length bytes.now)) }
        ensures appended { IfOk result (λ n. Self.seen self.new ≡ given (take n bytes.now) (Self.seen self.old)) }
        ensures failed { OnErr result (HasFailed (Self.seen self.old) (Self.seen self.new)) };

    /// A number that it tells isn't above the last count.
    ghost number_fits: { (s : Self) → FitsLastCount (Self.seen s).content };
}

/// Writes all of the bytes, in as many calls as the sink takes.
///
/// # Errors
///
/// `Failed` where a call failed. Then a prefix of the bytes was appended.
pub fn write_all<K: Sink>(sink: &mut K, bytes: &[u8]) -> Result<(), Failed>
    ensures ok { OnOk result (K.seen sink.new ≡ given bytes.now (K.seen sink.old)) }
    ensures failed { OnErr result (HasFailedBehind bytes.now (K.seen sink.old) (K.seen sink.new)) }
{
    let mut rest = bytes;
    while !rest.is_empty() {
        let taken = sink.write(rest)?;
        rest = &rest[taken..];
    }
    Ok(())
}
