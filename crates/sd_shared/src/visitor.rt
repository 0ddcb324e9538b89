ghost use Rattle.std.specs.Prelude.{◌≡◌, ℕ, ◌+◌, ◌<◌, List, true};
ghost use Rattle.sd_model_record.specs.DeskHistory.{DeskCall};
ghost use Rattle.sd_model_serve.specs.Sessions.{Visit};
ghost use Rattle.sd_pool.specs.declared.pool.Pool.{Pool};
ghost use Rattle.sd_shared_desk.specs.Shared.{IsSeatOf, number_of_seat, part_of};
ghost use Rattle.sd_shared.specs.DoorKeeper.{Counts, visit_of};
ghost use Rattle.sd_desk.specs.Sums.{Amounts};

use crate::Shared;
use log::Log;
use sd_outside::{Clock, Gate, Sink, Source};
use sd_shared_desk::DeskSeat;
use std::sync::Wait;

/// What is done with each session of a door.
pub trait Visitor {
    /// It may visit a session over a pool.
    ghost can_visit: { Pool → Self → Type 0 };

    /// By what a clock may say and over a pool, and by what it was and what it is, it has visited a session of which this is seen,
    /// and counts so much for it at the desk, by these calls.
    ghost has_visited: { (ℕ → Type 0) → Pool → Self → Self → Visit → Amounts → List DeskCall → Type 0 };

    /// Visits a session by its two ends, and answers whether that is a fault, which it is only where an end failed. A fault isn't
    /// counted by the visitor.
    fn visit<A: Source, T: Sink, G: Gate, C: Clock, R: Wait + Log>(
        &mut self,
        rt: &R,
        shared: &Shared<'_, G, C>,
        own: &mut DeskSeat,
        asking: &mut A,
        telling: &mut T,
    ) -> bool
        requires ready { can_visit shared.now.pool.now self.old }
        requires own { IsSeatOf shared.now.desk.now own.old }
        ensures ready { can_visit shared.now.pool.now self.new }
        ensures own { IsSeatOf shared.now.desk.now own.new × (number_of_seat own.new ≡ number_of_seat own.old) }
        ensures visited { Counts (has_visited (C.may_say shared.now.clock.now) shared.now.pool.now self.old self.new (visit_of (A.seen asking.old) (A.seen asking.new) (T.seen telling.old) (T.seen telling.new) result)) (part_of own.old) (part_of own.new) }
        ensures cause { result ≡ true → 0 < (A.seen asking.new).faults + (T.seen telling.new).faults };
}
