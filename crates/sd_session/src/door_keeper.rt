ghost use Rattle.std.specs.Prelude.{◌≡◌, ◌<◌, ◌^◌, false};
ghost use Rattle.sd_model_serve.specs.Receiving.{administrator};
ghost use Rattle.sd_pool.specs.Pool.{IsSeatOf, limits_of, own_at, shards_of, who_is};
ghost use Rattle.sd_shared_desk.specs.Shared.{IsSeatOf as IsDeskSeatOf, number_of_seat, part_of};
ghost use Rattle.sd_shared.specs.DoorKeeper.{EndsDoorKeeper};
ghost use Rattle.sd_session.specs.Doors.{ServesSessions};
ghost use Rattle.sd_session.specs.Space.{IsSpaceFor};
ghost use Rattle.sd_session.specs.Visiting.{CanVisit, WorksOn};

use crate::space::AdminSpace;
use crate::visiting::AdminVisitor;
use log::Log;
use sd_config::Settings;
use sd_outside::{Clock, Door, DoorEnd, Gate};
use sd_pool::Seat;
use sd_shared::{Shared, keep_door};
use sd_shared_desk::DeskSeat;
use std::sync::Wait;

/// Visits the sessions of a door.
fn visit_all<E: Door, C: Clock, G: Gate, R: Wait + Log>(
    rt: &R,
    shared: &Shared<'_, G, C>,
    own: &mut DeskSeat,
    visitor: &mut AdminVisitor<'_, '_, '_>,
    door: &mut E,
) -> DoorEnd
    requires ready { CanVisit shared.now.pool.now visitor.old }
    requires own { IsDeskSeatOf shared.now.desk.now own.old }
    requires none_out { (E.seen door.old).is_out ≡ false }
    requires turns { (E.seen door.old).turns < 2 ^ 62 }
    ensures ready { CanVisit shared.now.pool.now visitor.new }
    ensures works { WorksOn visitor.old visitor.new }
    ensures own { IsDeskSeatOf shared.now.desk.now own.new × (number_of_seat own.new ≡ number_of_seat own.old) }
    ensures serves { ServesSessions (shards_of shared.now.pool.now) visitor.old.settings.now (C.may_say shared.now.clock.now) (own_at visitor.old.seat.now) (own_at visitor.new.seat.now) (E.seen door.old) (E.seen door.new) (part_of own.old) (part_of own.new) }
    ensures ends { EndsDoorKeeper shared.now.run_flushes result (E.seen door.old) (E.seen door.new) (part_of own.new) }
{
    keep_door(rt, shared, own, visitor, door)
}

/// Serves the admin sessions of a door over a pool, one after another, and gives each back, until the door has none left, so
/// many flushes have come as are enough, where that isn't 0, or the door took 2^62 turns. A failure of the door and a session
/// that ends since one of its ends failed are counted at the desk, and the door is asked again.
pub fn doorkeep<E: Door, C: Clock, G: Gate, R: Wait + Log>(
    rt: &R,
    shared: &Shared<'_, G, C>,
    own: &mut DeskSeat,
    seat: &mut Seat,
    settings: &Settings,
    space: &mut AdminSpace,
    door: &mut E,
) -> DoorEnd
    requires seat { IsSeatOf shared.now.pool.now seat.old × (who_is seat.old ≡ administrator) }
    requires own { IsDeskSeatOf shared.now.desk.now own.old }
    requires space { IsSpaceFor (limits_of shared.now.pool.now) (shards_of shared.now.pool.now) space.old }
    requires none_out { (E.seen door.old).is_out ≡ false }
    requires turns { (E.seen door.old).turns < 2 ^ 62 }
    ensures seat { IsSeatOf shared.now.pool.now seat.new × (who_is seat.new ≡ administrator) }
    ensures own { IsDeskSeatOf shared.now.desk.now own.new × (number_of_seat own.new ≡ number_of_seat own.old) }
    ensures space { IsSpaceFor (limits_of shared.now.pool.now) (shards_of shared.now.pool.now) space.new }
    ensures serves { ServesSessions (shards_of shared.now.pool.now) settings.now (C.may_say shared.now.clock.now) (own_at seat.old) (own_at seat.new) (E.seen door.old) (E.seen door.new) (part_of own.old) (part_of own.new) }
    ensures ends { EndsDoorKeeper shared.now.run_flushes result (E.seen door.old) (E.seen door.new) (part_of own.new) }
{
    let mut visitor = AdminVisitor {
        seat,
        settings,
        space,
    };
    visit_all(rt, shared, own, &mut visitor, door)
}
