ghost use Rattle.std.specs.Prelude.{◌≡◌, ℕ, ◌+◌, ◌<◌, ◌^◌, false};
ghost use Rattle.sd_shared_desk.specs.Shared.{IsSeatOf, number_of_seat, part_of};
ghost use Rattle.sd_shared.specs.DoorKeeper.{HasKept, EndsDoorKeeper, Turns};

use crate::Shared;
use crate::visitor::Visitor;
use log::Log;
use sd_outside::{Clock, Door, DoorEnd, Entry, Gate};
use sd_shared_desk::DeskSeat;
use std::sync::Wait;

// How many turns of a door are the most.
const MOST_TURNS: u64 = 1 << 62;

// The place of the gate before a door is asked.
const PLACE: u8 = 4;

/// Asks the door once. A session that it gives is visited and given back, and a fault is counted. Answers whether the door goes
/// on.
fn serve_next<V: Visitor, E: Door, G: Gate, C: Clock, R: Wait + Log>(
    rt: &R,
    shared: &Shared<'_, G, C>,
    own: &mut DeskSeat,
    visitor: &mut V,
    door: &mut E,
) -> bool
    requires own { IsSeatOf shared.now.desk.now own.old }
    requires ready { V.can_visit shared.now.pool.now visitor.old }
    requires none_out { (E.seen door.old).is_out ≡ false }
    requires few { (E.seen door.old).turns < 2 ^ 63 }
    ensures own { IsSeatOf shared.now.desk.now own.new × (number_of_seat own.new ≡ number_of_seat own.old) }
    ensures ready { V.can_visit shared.now.pool.now visitor.new }
    ensures kept { HasKept (V.has_visited (C.may_say shared.now.clock.now) shared.now.pool.now) visitor.old visitor.new (E.seen door.old) (E.seen door.new) (part_of own.old) (part_of own.new) }
    ensures turns { Turns result (E.seen door.old) (E.seen door.new) }
    ensures unasked { result ≡ false → own.new ≡ own.old }
{
    match door.next_session() {
        Entry::Session(mut asking, mut telling) => {
            let is_fault = visitor.visit(rt, shared, own, &mut asking, &mut telling);
            door.leave(asking, telling);
            if is_fault {
                shared.desk.admin_fault(rt, own);
            }
            true
        }
        Entry::Idle => true,
        Entry::Failed => {
            shared.desk.admin_fault(rt, own);
            true
        }
        Entry::End => false,
    }
}

/// Visits the sessions of a door one after another and gives each back, until the door has none left, so many flushes have come
/// as are enough, where that isn't 0, or the door took 2^62 turns. A failure of the door and a visit that is a fault are counted
/// at the desk, and the door is asked again.
pub fn keep_door<V: Visitor, E: Door, G: Gate, C: Clock, R: Wait + Log>(
    rt: &R,
    shared: &Shared<'_, G, C>,
    own: &mut DeskSeat,
    visitor: &mut V,
    door: &mut E,
) -> DoorEnd
    requires own { IsSeatOf shared.now.desk.now own.old }
    requires ready { V.can_visit shared.now.pool.now visitor.old }
    requires none_out { (E.seen door.old).is_out ≡ false }
    requires turns { (E.seen door.old).turns < 2 ^ 62 }
    ensures own { IsSeatOf shared.now.desk.now own.new × (number_of_seat own.new ≡ number_of_seat own.old) }
    ensures ready { V.can_visit shared.now.pool.now visitor.new }
    ensures kept { HasKept (V.has_visited (C.may_say shared.now.clock.now) shared.now.pool.now) visitor.old visitor.new (E.seen door.old) (E.seen door.new) (part_of own.old) (part_of own.new) }
    ensures ends { EndsDoorKeeper shared.now.run_flushes result (E.seen door.old) (E.seen door.new) (part_of own.new) }
{
    for _turn in 0..MOST_TURNS {
        if let Some(rounds) = shared.desk.rounds_reached(rt, shared.run_flushes, own) {
            return DoorEnd::Stopped { rounds };
        }
        shared.gate.pass(PLACE);
        if !serve_next(rt, shared, own, visitor, door) {
            return DoorEnd::End;
        }
    }
    DoorEnd::Worn { turns: MOST_TURNS }
}
