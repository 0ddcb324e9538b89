use crate::client::Client;
use sd_outside::{Failed, Faulty, Sink, fault};

/// What a client of a door is told in one session. What it doesn't take at once is held for it; a client for whom no more can be
/// held is cut off. It doesn't tell what it was given.
#[derive(Drop)]
pub struct SessionSink {
    pub(crate) client: Client,
    /// How many bytes may be held for the client.
    room: usize,
    faults: u64,
}

impl SessionSink {
    ghost use Rattle.std.specs.Prelude.{◌≡◌, ◌<◌, ◌↔◌, IsTrue};
    ghost use Rattle.sd_model_outside.specs.Outside.{Unknown, fresh};

    /// A sink to a client, whose connection doesn't block, and for whom so many bytes may be held.
    pub(crate) fn new(client: Client, room: usize) -> SessionSink
        ensures { ⟦<SessionSink as Faulty>⟧.seen result ≡ fresh Unknown }
    {
        SessionSink {
            client,
            room,
            faults: 0,
        }
    }

    /// Whether a call on it failed.
    pub(crate) fn has_failed(&self) -> bool
        ensures { IsTrue result ↔ (0 < (⟦<SessionSink as Faulty>⟧.seen self.now).faults) }
    {
        self.faults > 0
    }
}

impl Faulty for SessionSink {
    ghost use Rattle.std.specs.Prelude.{min, None};
    ghost use Rattle.std.proofs.Common.{arith};
    ghost use Rattle.sd_model_outside.specs.Outside.{Unknown, last_count, object_of};

    ghost seen = { λ s. object_of Unknown (min s.faults last_count) None };

    ghost faults_fit = { λ s. omega arith };
}

impl Sink for SessionSink {
    fn write(&mut self, bytes: &[u8]) -> Result<usize, Failed> {
        match self.client.tell(bytes, self.room) {
            0 => Err(fault(&mut self.faults)),
            count => Ok(count),
        }
    }

    ghost number_fits = { λ s. tt };
}
