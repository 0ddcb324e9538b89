use crate::door_sizes::Share;
use sd_edge::LineBuffer;
use sd_outside::{Address, Failed, Faulty, OpenRefusal, Opens, Source, opening_fault};

/// What a client of a door asks in one session: whole lines that it has sent, or a piece of a line that is split. It doesn't tell
/// what it has left.
#[derive(Drop)]
pub struct SessionSource {
    pub(crate) place: usize,
    pub(crate) lines: LineBuffer,
    /// How many bytes of the lines the session has left.
    left: usize,
    pub(crate) is_read: bool,
    faults: u64,
}

impl SessionSource {
    ghost use Rattle.std.specs.Prelude.{◌≡◌, ◌<◌, ◌↔◌, IsTrue};
    ghost use Rattle.sd_model_outside.specs.Outside.{Unknown, fresh};

    /// So much of what the client at a place has sent.
    pub(crate) fn new(place: usize, lines: LineBuffer, share: Share) -> SessionSource
        ensures { ⟦<SessionSource as Faulty>⟧.seen result ≡ fresh Unknown }
    {
        let left = match share {
            Share::Line => lines.first_line(),
            Share::Lines => usize::MAX,
        };
        SessionSource {
            place,
            lines,
            left,
            is_read: false,
            faults: 0,
        }
    }

    /// Whether a call on it failed.
    pub(crate) fn has_failed(&self) -> bool
        ensures { IsTrue result ↔ (0 < (⟦<SessionSource as Faulty>⟧.seen self.now).faults) }
    {
        self.faults > 0
    }
}

impl Faulty for SessionSource {
    ghost use Rattle.std.specs.Prelude.{min, None};
    ghost use Rattle.std.proofs.Common.{arith};
    ghost use Rattle.sd_model_outside.specs.Outside.{Unknown, last_count, object_of};

    ghost seen = { λ s. object_of Unknown (min s.faults last_count) None };

    ghost faults_fit = { λ s. omega arith };
}

impl Opens for SessionSource {
    /// Opens nowhere.
    fn open_at(&mut self, _at: &Address) -> Result<(), OpenRefusal> {
        Err(opening_fault(&mut self.faults))
    }
}

impl Source for SessionSource {
    fn read(&mut self, buf: &mut [u8]) -> Result<usize, Failed> {
        let most = buf.len().min(self.left);
        let count = self.lines.take(&mut buf[..most]);
        self.left = self.left.saturating_sub(count);
        self.is_read = count == 0;
        Ok(count)
    }
}
