ghost use Rattle.std.specs.Prelude.{◌≡◌};
ghost use Rattle.sd_model_record.specs.Desk.{new_desk};
ghost use Rattle.sd_desk.specs.Sums.{AddsUp, IsInRange};
ghost use Rattle.sd_desk.specs.Facts.{facts_view};
ghost use Rattle.sd_desk.specs.Marks.{marks_of};
ghost use Rattle.sd_desk.specs.Tally.{tally_of};
ghost use Rattle.sd_desk.specs.Steps.{with_tally, taken, marked, with_health, with_admin_fault, with_repeater_faults};

use crate::count::counted;
use crate::facts::DeskFacts;
use crate::marks::{RoundMarks, count_faults};
use crate::tally::Tally;
use sd_outside::PerBackend;
use std::marker::Model;

/// What the server counts of itself, when the last datagram came, and whether the server is well. Each count stops at 2^63.
/// What a call doesn't name stays. Contracts see the desk of the definitions.
#[derive(Debug, Drop)]
pub struct Desk {
    start: u64,
    last: u64,
    up: bool,
    tally: Tally,
    totals: Tally,
    taken_so_far: Tally,
    rounds: u64,
    faults: PerBackend<u64>,
    repeater_faults: u64,
    admin_faults: u64,
}

impl Model for Desk {
    ghost use Rattle.sd_model_record.specs.Desk.{Desk as Value'};

    ghost Value = { Value' };

    ghost use Rattle.sd_desk.specs.Desk.{desk_of, IsDesk};

    ghost view = { desk_of };

    ghost invariant = { IsDesk };
}

impl Desk {
    /// The desk of a server that starts at this Unix second.
    pub fn new(start: u64) -> Desk
        ensures { result ≡ new_desk start }
    {
        Desk {
            start,
            last: start,
            up: true,
            tally: Tally::none(),
            totals: Tally::none(),
            taken_so_far: Tally::none(),
            rounds: 0,
            faults: PerBackend::of(0),
            repeater_faults: 0,
            admin_faults: 0,
        }
    }

    /// Adds what a datagram counts for, which came at this Unix second.
    pub fn add(&mut self, t: Tally, now: u64)
        ensures { self.new ≡ with_tally self.old (tally_of t) now }
    {
        self.tally = self.tally.and(t);
        self.totals = self.totals.and(t);
        self.last = now;
    }

    /// The tally since it was last taken, which begins anew.
    pub fn take(&mut self) -> Tally
        ensures tally { tally_of result ≡ (self.old).tally }
        ensures desk { self.new ≡ taken self.old }
    {
        let tally = self.tally;
        self.taken_so_far = self.taken_so_far.and(tally);
        self.tally = Tally::none();
        tally
    }

    /// Says whether the server is well.
    pub fn set_health(&mut self, up: bool)
        ensures { self.new ≡ with_health self.old up }
    {
        self.up = up;
    }

    /// Counts a flush, and a fault of each backend that its marks name.
    pub fn mark(&mut self, m: RoundMarks)
        ensures { self.new ≡ marked self.old (marks_of m) }
    {
        self.rounds = counted(self.rounds, 1);
        count_faults(&mut self.faults, &m);
    }

    /// Counts an admin session that failed.
    pub fn admin_fault(&mut self)
        ensures { self.new ≡ with_admin_fault self.old }
    {
        self.admin_faults = counted(self.admin_faults, 1);
    }

    /// Counts sends of the repeater that failed.
    pub fn repeater_faults(&mut self, n: u32)
        ensures { self.new ≡ with_repeater_faults self.old n }
    {
        self.repeater_faults = counted(self.repeater_faults, u64::from(n));
    }

    /// The facts as they stand. The totals are the tallies taken and the tally, and each count is at most 2^63.
    pub fn facts(&self) -> DeskFacts
        ensures facts { facts_view result ≡ (self.now).facts }
        ensures adds_up { AddsUp self.now }
        ensures in_range { IsInRange self.now }
    {
        DeskFacts {
            start: self.start,
            last: self.last,
            totals: self.totals,
            up: self.up,
            rounds: self.rounds,
            faults: self.faults,
            repeater_faults: self.repeater_faults,
            admin_faults: self.admin_faults,
        }
    }
}
