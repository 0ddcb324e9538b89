//! What workers tell of their runs.
ghost use Rattle.std.specs.Prelude.{◌≡◌, ◌≤◌, [], All, length, map, vec_capacity};

/// A worker that tells how its run ended.
pub trait Reports {
    type End;

    // It was run.
    ghost was_run: { Self → Type 0 };

    // How it ended, where it was run.
    ghost ended_in: { Self → Self.End };

    /// How its run ended.
    fn end(&self) -> Self::End
        requires { was_run self.now }
        ensures { result ≡ ended_in self.now };
}

/// How each worker ended, in order, in room for that.
pub fn ends_in<W: Reports>(workers: &[W], mut room: Vec<W::End>) -> Vec<W::End>
    requires run { All W.was_run workers.now }
    requires room { length workers.now ≤ vec_capacity room }
    requires none { room.items ≡ [] }
    ensures { result.items ≡ map W.ended_in workers.now }
{
    for worker in workers {
        room.push_reserved(worker.end());
    }
    room
}
