//! The flag by which a feed tells a worker to end.
ghost use Rattle.std.specs.Prelude.{◌≡◌, ◌+◌, ◌<◌, ◌^◌, true, false, Some, None, IsSome, IfOk};
ghost use Rattle.sd_outlet.specs.StopRule.{stop_view, IsStopFlag, raised_flag, read_flag, compared_flag};

use crate::stop_view::StopView;
use atomic_table::{Join, Play, Seat, Split, Table, TableRule};
use std::alloc::{AllocError, Global};

/// The rule of a stop flag.
pub struct StopRule;

impl TableRule<(), StopView, ()> for StopRule {
    ghost holds = { λ _. IsStopFlag };

    ghost first = { λ _. stop_view true None None };
}

// The flag is raised.
struct Raise;

impl Play<(), StopView> for Raise {
    ghost then = { raised_flag };
}

// The flag is read.
struct Read;

impl Play<(), StopView> for Read {
    ghost then = { read_flag };
}

// What was found is compared with what was raised.
struct Compare;

impl Play<(), StopView> for Compare {
    ghost then = { compared_flag };
}

// A seat that reads is split off, and joined in again.
struct Reader;

impl Split<StopView> for Reader {
    ghost left = { λ v. stop_view v.raises v.raised None };

    ghost right = { λ v. stop_view false None None };
}

impl Join<StopView> for Reader {
    ghost both = { λ v w. stop_view v.raises v.raised w.found };

    ghost spent = { stop_view false None None };
}

/// A seat of a stop flag.
pub type StopSeat = Seat<(), StopView>;

/// A flag that is raised once, and then tells how many texts were sent before.
#[derive(Drop)]
pub struct StopFlag {
    table: Table<(), StopView, (), StopRule, Global>,
    ghost sized: { table.shared.table_id.words ≡ 1 },
}

impl StopFlag {
    ghost use Rattle.sd_outlet.specs.StopFlag.{IsSeatOf};

    /// A flag that isn't raised, with the seat of who raises it and that of who reads it.
    ///
    /// # Errors
    ///
    /// Where no memory is left for it.
    pub(crate) fn open(alloc: Global) -> Result<(StopFlag, StopSeat, StopSeat), AllocError>
        ensures raises { IfOk result (λ r. IsSeatOf r.0 r.1 × (r.1.me.0 ≡ stop_view true None None)) }
        ensures reads { IfOk result (λ r. IsSeatOf r.0 r.2 × (r.2.me.0 ≡ stop_view false None None)) }
    {
        let (table, mut raises) = Table::of_words(alloc, &[0], &())?;
        let flag = StopFlag { table };
        let reads = flag.table.shared.split_seat::<Reader>(&mut raises);
        Ok((flag, raises, reads))
    }

    /// Raises the flag, which tells that so many texts were sent before.
    pub(crate) fn raise(&self, seat: &mut StopSeat, sends: u64)
        requires seat { IsSeatOf self.now seat.old × (seat.old.me.0.raises ≡ true) }
        requires first { seat.old.me.0.raised ≡ None }
        requires few { sends + 1 < 2 ^ 64 }
        ensures seat { IsSeatOf self.now seat.new }
        ensures raised { seat.new.me.0 ≡ stop_view true (Some sends) seat.old.me.0.found }
    {
        self.table.shared.store::<Raise>(seat, 0, sends + 1);
    }

    /// How many texts were sent before the flag was raised, if it is.
    pub(crate) fn read(&self, seat: &mut StopSeat) -> Option<u64>
        requires seat { IsSeatOf self.now seat.old }
        ensures seat { IsSeatOf self.now seat.new }
        ensures found { seat.new.me.0 ≡ stop_view seat.old.me.0.raises seat.old.me.0.raised result }
    {
        self.table.shared.load::<Read>(seat, 0).checked_sub(1)
    }

    /// Where who read the flag found it raised, it is raised to that number.
    pub(crate) fn compare(&self, seat: &mut StopSeat, other: StopSeat)
        requires seat { IsSeatOf self.now seat.old × (seat.old.me.0.raises ≡ true) }
        requires other { IsSeatOf self.now other }
        ensures { IsSome other.me.0.found → other.me.0.found ≡ seat.old.me.0.raised }
    {
        self.table.shared.join_seat::<Reader>(seat, other);
        self.table.shared.load::<Compare>(seat, 0);
    }
}
