ghost use Rattle.std.specs.Prelude.{◌≡◌, ◌≤◌, Some};
ghost use Rattle.sd_model_outside.specs.Outside.{HasFailed, last_count};
ghost use Rattle.sd_model_outside.specs.Uses.{IsSpent};
ghost use Rattle.sd_outside.specs.Turns.{GivesTick};
ghost use Rattle.sd_outside.specs.Answers.{MatchTick};
ghost use Rattle.sd_outside.specs.Intervals.{interval_view};

use crate::opens::Faulty;

/// How far the ticks of a beat are apart.
#[derive(Clone, Copy, Debug, PartialEq, Eq)]
pub struct Interval {
    /// In milliseconds.
    pub ms: u32,
    /// Whether ticks come where the system's clock is at a multiple of that, and not counted from the start on.
    pub is_aligned: bool,
}

/// What a beat answers.
#[derive(Clone, Copy, Debug, PartialEq, Eq)]
pub enum Tick {
    /// A flush is due, at this Unix second.
    At(u64),
    /// No flush is left.
    End,
    /// The beat failed, and its count of faults rose.
    Failed,
}

/// An object that says when a flush is due. It tells the Unix seconds of the flushes that it has left, or nothing, and
/// always the interval of its last start, and its turns: how often it answered `At`, up to 2^64 - 1.
pub trait Beat: Faulty {
    /// Starts it with an interval between flushes.
    fn start(&mut self, interval: Interval)
        ensures { Self.seen self.new ≡ record (Self.seen self.old) { interval = Some (interval_view interval) } };

    /// The Unix second of the next flush. It may wait.
    fn next(&mut self) -> Tick
        ensures { MatchTick result
            (λ second. GivesTick second (Self.seen self.old) (Self.seen self.new))
            ((Self.seen self.new ≡ Self.seen self.old) × IsSpent (Self.seen self.old).content)
            (HasFailed (Self.seen self.old) (Self.seen self.new)) };

    /// Its turns aren't above the last count.
    ghost turns_fit: { (s : Self) → (Self.seen s).turns ≤ last_count };
}
