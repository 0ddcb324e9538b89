use crate::address::Address;
use crate::backend::Backend;
use crate::opens::{Failed, Faulty};
use crate::sink::Sink;
use crate::unfailing::Unfailing;
use crate::wire::Wire;

/// A sink and a backend that counts the bytes that it is given, up to 2^64 - 1, where the count stays, and keeps none
/// of them. It takes whole pieces, takes no memory, and never fails. As a wire it takes packets, and counts none.
#[derive(Drop)]
pub struct CountSink {
    count: u64,
    opened_at: Option<Address>,
}

impl CountSink {
    ghost use Rattle.std.specs.Prelude.{◌≡◌, None};
    ghost use Rattle.sd_model_outside.specs.Outside.{Number, fresh};

    /// A sink that was given nothing.
    pub fn new() -> CountSink
        ensures { ⟦<CountSink as Faulty>⟧.seen result ≡ fresh (Number 0) }
    {
        CountSink {
            count: 0,
            opened_at: None,
        }
    }

    /// How many bytes it was given.
    pub fn count(&self) -> u64
        ensures { (⟦<CountSink as Faulty>⟧.seen self.now).content ≡ Number result }
    {
        self.count
    }
}

impl Unfailing for CountSink {
    ghost use Rattle.sd_outside.specs.CountSink.{seen_of};

    ghost shown = { seen_of };

    fn note(&mut self, at: &Address) {
        self.opened_at = Some(at.copied());
    }
}

impl Sink for CountSink {
    ghost use Rattle.std.specs.Prelude.{◌≡◌, ◌<◌, length, IsOkAnd};
    ghost use Rattle.std.proofs.Common.{arith};
    ghost use Rattle.sd_model_outside.specs.Outside.{given};
    ghost use Rattle.sd_outside.specs.CountSink.{Takes, seen_of};

    fn write(&mut self, bytes: &[u8]) -> Result<usize, Failed>
        requires { 0 < length bytes.now }
        ensures { IsOkAnd result (Takes self.old self.new bytes.now) }
    {
        self.count = self.count.saturating_add(bytes.len() as u64);
        Ok(bytes.len())
    }

    ghost number_fits = { λ s. Prim.omega arith };
}

impl Backend for CountSink {
    ghost use Rattle.std.specs.Prelude.{◌≡◌, Ok};

    fn begin(&mut self) -> Result<(), Failed>
        ensures ok { result ≡ Ok tt }
        ensures stays { self.new ≡ self.old }
    {
        Ok(())
    }

    fn finish(&mut self) -> Result<(), Failed>
        ensures ok { result ≡ Ok tt }
        ensures stays { self.new ≡ self.old }
    {
        Ok(())
    }
}

impl Wire for CountSink {
    fn send(&mut self, _packet: &[u8]) -> Result<(), Failed> {
        Ok(())
    }
}
