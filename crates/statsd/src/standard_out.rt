ghost use Rattle.std.specs.Prelude.{◌≡◌, ◌<◌, ◌≤◌, ◌↔◌, [], length, IfOk, IsTrue};
ghost use Rattle.sd_model_outside.specs.Outside.{File};
ghost use Rattle.sd_outside.specs.Places.{place_of};

use crate::adapter::Adapter;
use crate::shared::Shared;
use sd_net::Text;
use sd_outside::{Address, Failed, OpenRefusal, Opens, Sink, fault};
use std::io;

/// What stands for standard output: the runtime has it, so nothing.
#[derive(Clone, Copy, Drop)]
pub(crate) struct Standard;

/// Standard output, for all that a command writes there, and the totals of a server or a proxy. It doesn't tell what it was given.
pub(crate) type StandardOut<'a, X> = Adapter<'a, X, Standard>;

/// Whether an address is that of standard output, the file with the empty name.
pub(crate) fn is_standard(at: &Address) -> bool
    ensures { IsTrue result ↔ (place_of at.now ≡ File []) }
{
    match at {
        Address::File(name) => name.is_empty(),
        Address::Host { .. } | Address::Datagrams { .. } => false,
    }
}

/// Writes bytes of a text to standard output, as many as it takes without waiting for longer than the text may, and answers how many.
///
/// # Errors
///
/// `WriteZero`, `TimedOut`, and those of the system.
pub(crate) fn write_text(
    rt: &HostRuntime,
    shared: &Shared<'_>,
    text: Text,
    bytes: &[u8],
) -> io::Result<usize>
    ensures { IfOk result (λ n. (0 < n) × (n ≤ length bytes.now)) }
{
    let (stop, pace) = (&shared.stop, &shared.pace);
    let room = shared.output.room(rt, stop, pace, text, bytes.len())?;
    let count = rt.write_some(&bytes[..room.min(bytes.len())])?;
    shared.output.took(count);
    if count == 0 {
        return Err(io::Error::from(io::ErrorKind::WriteZero));
    }
    Ok(count)
}

impl<'a, X> Opens for Adapter<'a, X, Standard> {
    /// Opens at the file with the empty name, and nowhere else.
    fn open_at(&mut self, at: &Address) -> Result<(), OpenRefusal> {
        let standard = if is_standard(at) {
            Ok(Standard)
        } else {
            Err(OpenRefusal::Failed)
        };
        self.keep(at, standard)
    }
}

impl<'a, X> Sink for Adapter<'a, X, Standard> {
    fn write(&mut self, bytes: &[u8]) -> Result<usize, Failed> {
        match write_text(self.rt, self.shared, Text::Totals, bytes) {
            Ok(n) => Ok(n),
            Err(_) => Err(fault(&mut self.faults)),
        }
    }

    ghost number_fits = { λ s. tt };
}
