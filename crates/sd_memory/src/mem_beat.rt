ghost use Rattle.std.specs.Prelude.{◌≤◌, vec_len, Some};
ghost use Rattle.std.proofs.Common.{arith};

use crate::calls::next_call_fails;
use sd_outside::{Beat, Faulty, Interval, Tick, fault};

/// A beat in memory, whose ticks are given when it is made.
#[derive(Drop)]
pub struct MemBeat {
    ticks: Vec<u64>,
    taken: usize,
    interval: Option<Interval>,
    faults: u64,
    turns: u64,
    calls: u64,
    /// The numbers of the calls of `next` that are to fail, counted from 1.
    pub fail_call: Vec<u64>,
    ghost taken_within: { taken ≤ vec_len ticks },
}

impl MemBeat {
    ghost use Rattle.std.specs.Prelude.{◌≡◌, [], option_map};
    ghost use Rattle.sd_model_outside.specs.Outside.{Ticks, fresh};
    ghost use Rattle.sd_outside.specs.Intervals.{interval_view};
    ghost use Rattle.sd_memory.specs.MemBeat.{calls_of};

    /// A beat that has the ticks left, wasn't started, and of which no call is to fail.
    pub fn of(ticks: Vec<u64>) -> MemBeat
        ensures seen { ⟦<MemBeat as Faulty>⟧.seen result ≡ fresh (Ticks ticks.items) }
        ensures no_calls { calls_of result ≡ 0 }
        ensures fails_no_call { result.fail_call.items ≡ [] }
    {
        let alloc = *ticks.allocator();
        MemBeat {
            ticks,
            taken: 0,
            interval: None,
            faults: 0,
            turns: 0,
            calls: 0,
            fail_call: Vec::new(alloc),
        }
    }

    /// The ticks that it has left.
    pub fn remaining(&self) -> &[u64]
        ensures { (⟦<MemBeat as Faulty>⟧.seen self.now).content ≡ Ticks result.now }
    {
        &self.ticks[self.taken..]
    }

    /// How often it failed.
    pub fn faults(&self) -> u64
        ensures { result ≡ (⟦<MemBeat as Faulty>⟧.seen self.now).faults }
    {
        self.faults
    }

    /// How many turns it took.
    pub fn turns(&self) -> u64
        ensures { result ≡ (⟦<MemBeat as Faulty>⟧.seen self.now).turns }
    {
        self.turns
    }

    /// The interval of its last start, if it was started.
    pub fn interval(&self) -> Option<Interval>
        ensures { option_map interval_view result ≡ (⟦<MemBeat as Faulty>⟧.seen self.now).interval }
    {
        self.interval
    }
}

impl Faulty for MemBeat {
    ghost use Rattle.sd_memory.specs.MemBeat.{seen_of};

    ghost seen = { seen_of };

    ghost faults_fit = { λ s. Prim.omega arith };
}

impl Beat for MemBeat {
    ghost use Rattle.std.specs.Prelude.{◌≡◌};
    ghost use Rattle.sd_outside.specs.Turns.{raised};
    ghost use Rattle.sd_outside.specs.Answers.{Fails, HasEnded, MatchTick};
    ghost use Rattle.sd_outside.specs.Intervals.{interval_view};
    ghost use Rattle.sd_memory.specs.MemBeat.{Gives, IsToFail, calls_of, left_of, seen_of};

    fn start(&mut self, interval: Interval)
        ensures started { seen_of self.new ≡ record (seen_of self.old) { interval = Some (interval_view interval) } }
        ensures no_call { calls_of self.new ≡ calls_of self.old }
        ensures failures_stay { self.new.fail_call ≡ self.old.fail_call }
    {
        self.interval = Some(interval);
    }

    fn next(&mut self) -> Tick
        ensures answer { MatchTick result
            (λ second. Gives self.old self.new second)
            (HasEnded (left_of self.old) (seen_of self.old) (seen_of self.new))
            (Fails (seen_of self.old) (seen_of self.new)) }
        ensures cause { MatchTick result
            (λ second. ¬ IsToFail self.old self.new)
            (¬ IsToFail self.old self.new)
            (IsToFail self.old self.new) }
        ensures counted { calls_of self.new ≡ raised (calls_of self.old) }
        ensures failures_stay { self.new.fail_call ≡ self.old.fail_call }
    {
        if next_call_fails(&mut self.calls, &self.fail_call) {
            fault(&mut self.faults);
            return Tick::Failed;
        }
        if self.taken == self.ticks.len() {
            return Tick::End;
        }
        let second = self.ticks[self.taken];
        self.taken += 1;
        self.turns = self.turns.saturating_add(1);
        Tick::At(second)
    }

    ghost turns_fit = { λ s. Prim.omega arith };
}
