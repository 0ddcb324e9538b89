ghost use Rattle.std.specs.Prelude.{◌≡◌, ◌<◌, ◌≤◌, length, take, IfOk, OnErr};
ghost use Rattle.sd_model_outside.specs.Outside.{HasFailed, HasRead, IsAtEnd, FailedBehind};

use crate::opens::{Failed, Opens};

/// An object that bytes are read from. It tells the bytes that it has left, or nothing.
pub trait Source: Opens {
    /// Reads the next bytes into the start of the buffer, and answers their number. 0 is the end.
    ///
    /// # Errors
    ///
    /// `Failed` where the source failed. Then nothing was taken from it.
    fn read(&mut self, buf: &mut [u8]) -> Result<usize, Failed>
        requires { 0 < length buf.old }
        ensures within { IfOk result (λ n. n ≤ length buf.new) }
        ensures next { IfOk result (λ n. HasRead (take n buf.new) (Self.seen self.old) (Self.seen self.new)) }
        ensures end { IfOk result (λ n. n ≡ 0 → IsAtEnd (Self.seen self.old).content) }
        ensures failed { OnErr result (HasFailed (Self.seen self.old) (Self.seen self.new)) };
}

/// Reads until the buffer is full or the source is at its end, and answers how many bytes stand at its start.
///
/// # Errors
///
/// `Failed` where a read failed. Bytes may have been read before.
pub fn read_full<R: Source>(source: &mut R, buf: &mut [u8]) -> Result<usize, Failed>
    ensures within { IfOk result (λ n. n ≤ length buf.new) }
    ensures read { IfOk result (λ n. HasRead (take n buf.new) (R.seen source.old) (R.seen source.new)) }
    ensures whole { IfOk result (λ n. n < length buf.new → IsAtEnd (R.seen source.new).content) }
    ensures failed { OnErr result (FailedBehind (length buf.old) (R.seen source.old) (R.seen source.new)) }
{
    let mut len = 0;
    while len < buf.len() {
        let count = source.read(&mut buf[len..])?;
        if count == 0 {
            break;
        }
        len += count;
    }
    Ok(len)
}
