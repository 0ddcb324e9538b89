ghost use Rattle.std.specs.Prelude.{◌≡◌, ◌<◌, length};
ghost use Rattle.sd_outlet.specs.Buf.{text_of, size_of};

use crate::buf::Buf;
use sd_outside::{Failed, Faulty, Sink, fault};

/// A buffer that is out of its outlet, a sink for one text, until it is sent. A write takes what fits, and fails only where
/// the buffer is full. It can't be dropped.
pub struct OutBuf {
    pub(crate) buf: Buf,
    pub(crate) faults: u64,
    ghost full: { 0 < faults → length (text_of buf) ≡ size_of buf },
}

impl Faulty for OutBuf {
    ghost use Rattle.std.proofs.Common.{arith};
    ghost use Rattle.sd_outlet.specs.OutBuf.{seen_of};

    ghost seen = { seen_of };

    ghost faults_fit = { λ s. Prim.omega arith };
}

impl Sink for OutBuf {
    ghost use Rattle.std.specs.Prelude.{◌≡◌, ◌<◌, ◌↔◌, length, IfOk, IsErr, OnErr};
    ghost use Rattle.sd_outlet.specs.OutBuf.{Fails, Takes, size_in, text_in};

    fn write(&mut self, bytes: &[u8]) -> Result<usize, Failed>
        requires { 0 < length bytes.now }
        ensures takes { IfOk result (Takes self.old self.new bytes.now) }
        ensures fails { OnErr result (Fails self.old self.new) }
        ensures cause { IsErr result ↔ (length (text_in self.old) ≡ size_in self.old) }
    {
        let count = bytes.len().min(self.buf.room());
        if count == 0 {
            return Err(fault(&mut self.faults));
        }
        self.buf.append(&bytes[..count]);
        Ok(count)
    }

    ghost number_fits = { λ _. tt };
}
