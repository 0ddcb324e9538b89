ghost use Rattle.std.specs.Prelude.{◌≡◌, ◌≤◌, length, take};
ghost use Rattle.sd_model_outside.specs.Outside.{HasFailed, last_count};
ghost use Rattle.sd_model_outside.specs.Uses.{IsSpent};
ghost use Rattle.sd_outside.specs.Turns.{GivesDatagram, most_datagram, turned};
ghost use Rattle.sd_outside.specs.Answers.{MatchNext};

use crate::opens::Opens;

/// What a source of datagrams answers.
#[derive(Clone, Copy, Debug, PartialEq, Eq)]
pub enum Next {
    /// A datagram of so many bytes.
    Packet { len: usize },
    /// No datagram is left.
    End,
    /// None came for now.
    Idle,
    /// The source failed, and its count of faults rose.
    Failed,
}

/// How the work of a receiver ended.
#[derive(Clone, Copy, Debug, PartialEq, Eq)]
pub enum Ended {
    /// No datagram was left.
    End,
    /// The source failed, and its count of faults rose.
    Failed,
    /// So many flushes had come, which were enough.
    Stopped { rounds: u64 },
    /// The source took so many turns, which are the most.
    Worn { turns: u64 },
}

/// An object that datagrams come from. It tells the datagrams that it has left, or nothing, and always its turns: how
/// often it answered `Packet` or `Idle`, up to 2^64 - 1.
pub trait Datagrams: Opens {
    /// Puts the next datagram at the start of the buffer. It may wait.
    fn next(&mut self, buf: &mut [u8]) -> Next
        requires { most_datagram ≤ length buf.old }
        ensures { MatchNext result
            (λ n. (n ≤ most_datagram) × GivesDatagram (take n buf.new) (Self.seen self.old) (Self.seen self.new))
            ((Self.seen self.new ≡ Self.seen self.old) × IsSpent (Self.seen self.old).content)
            (Self.seen self.new ≡ turned (Self.seen self.old))
            (HasFailed (Self.seen self.old) (Self.seen self.new)) };

    /// Its turns aren't above the last count.
    ghost turns_fit: { (s : Self) → (Self.seen s).turns ≤ last_count };
}
