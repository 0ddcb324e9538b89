ghost use Rattle.std.specs.Prelude.{◌≡◌, ◌<◌, ◌^◌, true, false, length};
ghost use Rattle.sd_model_serve.specs.Receiving.{most_turns};
ghost use Rattle.sd_outside.specs.declared.door.DoorEnd.TheVariants.{Worn};
ghost use Rattle.sd_batch.specs.Filing.{IsOpenFor};
ghost use Rattle.sd_pool.specs.Pool.{IsSeatOf, own_at, shards_of, who_is};
ghost use Rattle.sd_shared_desk.specs.Shared.{IsSeatOf as IsDeskSeatOf, number_of_seat, part_of};
ghost use Rattle.sd_receive.specs.LineReading.{CanVisit, IsNew, KeepsLines, WorksOn};

use crate::account::Account;
use crate::line_visitor::LineVisitor;
use log::Log;
use sd_batch::Batch;
use sd_desk::Tally;
use sd_outside::{Clock, Door, DoorEnd, Gate};
use sd_pool::Seat;
use sd_shared::{Shared, keep_door};
use sd_shared_desk::DeskSeat;
use sd_tcp::Cutter;
use std::sync::Wait;

// The most reads of a stream.
const MOST_READS: u64 = 1 << 62;

/// What the reading of a door's streams did: how it ended, what their lines count for, and how many of their samples were taken.
/// Each number stops at 2^63.
#[derive(Clone, Copy, Debug, PartialEq, Eq)]
pub struct Lined {
    pub ended: DoorEnd,
    pub tally: Tally,
    pub taken: u64,
}

/// How the reading of a door's streams ended, by whether one reached the limit and by how the keeping of the door ended.
fn ended_by(reached_limit: bool, kept: DoorEnd) -> DoorEnd
    ensures limit_reached { reached_limit ≡ true → result ≡ Worn most_turns }
    ensures kept { reached_limit ≡ false → result ≡ kept }
{
    if reached_limit {
        DoorEnd::Worn { turns: MOST_READS }
    } else {
        kept
    }
}

/// Reads the streams of a door.
fn read_all<E: Door, G: Gate, C: Clock, R: Wait + Log>(
    rt: &R,
    shared: &Shared<'_, G, C>,
    own: &mut DeskSeat,
    visitor: &mut LineVisitor<'_, '_, '_>,
    door: &mut E,
) -> Lined
    requires ready { CanVisit shared.now.pool.now visitor.old }
    requires new { IsNew visitor.old }
    requires own { IsDeskSeatOf shared.now.desk.now own.old }
    requires none_out { (E.seen door.old).is_out ≡ false }
    requires turns { (E.seen door.old).turns < 2 ^ 62 }
    ensures ready { CanVisit shared.now.pool.now visitor.new }
    ensures works { WorksOn visitor.old visitor.new }
    ensures own { IsDeskSeatOf shared.now.desk.now own.new × (number_of_seat own.new ≡ number_of_seat own.old) }
    ensures keeps { KeepsLines (C.may_say shared.now.clock.now) (shards_of shared.now.pool.now) shared.now.run_flushes (own_at visitor.old.seat.now) (own_at visitor.new.seat.now) (E.seen door.old) (E.seen door.new) (part_of own.old) (part_of own.new) result }
{
    let kept = keep_door(rt, shared, own, visitor, door);
    Lined {
        ended: ended_by(visitor.reached_limit, kept),
        tally: visitor.account.tally,
        taken: visitor.account.taken,
    }
}

/// Reads the sessions of a door as streams, one after another, and gives each back, until the door has none left, so many flushes
/// have come as are enough, where that isn't 0, or the door took 2^62 turns. A failure of the door and a stream that failed are
/// counted at the desk, and the door is asked again. It takes no memory.
pub fn linekeep<E: Door, G: Gate, C: Clock, R: Wait + Log>(
    rt: &R,
    shared: &Shared<'_, G, C>,
    own: &mut DeskSeat,
    seat: &mut Seat,
    cutter: &mut Cutter,
    door: &mut E,
    buf: &mut [u8],
    batch: &mut Batch,
) -> Lined
    requires own { IsDeskSeatOf shared.now.desk.now own.old }
    requires seat { IsSeatOf shared.now.pool.now seat.old }
    requires room { 0 < length buf.old }
    requires batch { IsOpenFor (shards_of shared.now.pool.now) batch.old }
    requires none_out { (E.seen door.old).is_out ≡ false }
    requires turns { (E.seen door.old).turns < 2 ^ 62 }
    ensures own { IsDeskSeatOf shared.now.desk.now own.new × (number_of_seat own.new ≡ number_of_seat own.old) }
    ensures seat { IsSeatOf shared.now.pool.now seat.new × (who_is seat.new ≡ who_is seat.old) }
    ensures room { length buf.new ≡ length buf.old }
    ensures batch { batch.new ≡ batch.old }
    ensures keeps { KeepsLines (C.may_say shared.now.clock.now) (shards_of shared.now.pool.now) shared.now.run_flushes (own_at seat.old) (own_at seat.new) (E.seen door.old) (E.seen door.new) (part_of own.old) (part_of own.new) result }
{
    let mut visitor = LineVisitor {
        seat,
        cutter,
        buf,
        batch,
        account: Account::none(),
        reached_limit: false,
    };
    read_all(rt, shared, own, &mut visitor, door)
}
