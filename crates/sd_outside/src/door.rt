ghost use Rattle.std.specs.Prelude.{◌≡◌, ◌≤◌, true, false};
ghost use Rattle.sd_model_outside.specs.Outside.{HasFailed, last_count};
ghost use Rattle.sd_model_outside.specs.Uses.{IsSpent};
ghost use Rattle.sd_outside.specs.Turns.{GivesSession, HasLeft, turned};
ghost use Rattle.sd_outside.specs.Answers.{MatchEntry};

use crate::opens::Opens;
use crate::sink::Sink;
use crate::source::Source;

/// What a door answers.
#[derive(Debug, Drop)]
pub enum Entry<A, T> {
    /// The two ends of a session: what it asks is read from the first, and what it is told is written to the second.
    Session(A, T),
    /// No session is left.
    End,
    /// None came for now.
    Idle,
    /// The door failed, and its count of faults rose.
    Failed,
}

/// How the keeping of a door ended.
#[derive(Clone, Copy, Debug, PartialEq, Eq)]
pub enum DoorEnd {
    /// No session was left.
    End,
    /// So many flushes had come, which were enough.
    Stopped { rounds: u64 },
    /// The door took so many turns, which are the most.
    Worn { turns: u64 },
}

/// An object that sessions come from, one after another. It tells the sessions that it has left and those that were given
/// back, or nothing, and always whether a session is out, and its turns: how often it answered `Session`, `Idle` or
/// `Failed`, up to 2^64 - 1.
pub trait Door: Opens {
    /// The end that is read from.
    type Asking: Source;

    /// The end that is written to.
    type Telling: Sink;

    /// The two ends of the next session, which have no faults yet. It may wait.
    fn next_session(&mut self) -> Entry<Self::Asking, Self::Telling>
        requires { (Self.seen self.old).is_out ≡ false }
        ensures { MatchEntry result
            (λ asking telling. GivesSession (Self.Asking.seen asking) (Self.Telling.seen telling) (Self.seen self.old) (Self.seen self.new))
            ((Self.seen self.new ≡ Self.seen self.old) × IsSpent (Self.seen self.old).content)
            (Self.seen self.new ≡ turned (Self.seen self.old))
            (HasFailed (turned (Self.seen self.old)) (Self.seen self.new)) };

    /// Takes the two ends of a session back.
    fn leave(&mut self, asking: Self::Asking, telling: Self::Telling)
        requires { (Self.seen self.old).is_out ≡ true }
        ensures { HasLeft (Self.Asking.seen asking) (Self.Telling.seen telling) (Self.seen self.old) (Self.seen self.new) };

    /// Its turns aren't above the last count.
    ghost turns_fit: { (s : Self) → (Self.seen s).turns ≤ last_count };
}
