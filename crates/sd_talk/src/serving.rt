//! The sessions of a door, one after another.
ghost use Rattle.std.specs.Prelude.{◌≡◌, ℕ, ◌+◌, ◌<◌, ◌^◌, true, false};
ghost use Rattle.sd_model_serve.specs.Sessions.{ends_by_fault};
ghost use Rattle.sd_talk.specs.Room.{IsLineRoom};
ghost use Rattle.sd_talk.specs.Serving.{EndsServing, ServesTalks, Turns};
ghost use Rattle.sd_talk.specs.Sessions.{end_of};

use crate::answerer::Answerer;
use crate::room::LineRoom;
use crate::sessions::session;
use log::Log;
use sd_outside::{Door, DoorEnd, Entry};
use std::sync::Wait;

// How many turns of a door are the most.
const MOST_TURNS: u64 = 1 << 62;

/// Asks the door once. A session that it gives is held and given back. Answers whether the door goes on.
fn serve_next<S, V: Answerer<S>, E: Door, R: Wait + Log>(
    rt: &R,
    shared: &S,
    answerer: &mut V,
    room: &mut LineRoom,
    door: &mut E,
) -> bool
    requires ready { V.can_answer shared.now answerer.old }
    requires room { IsLineRoom room.old }
    requires none_out { (E.seen door.old).is_out ≡ false }
    requires few { (E.seen door.old).turns < 2 ^ 63 }
    ensures ready { V.can_answer shared.now answerer.new }
    ensures room { IsLineRoom room.new }
    ensures served { ServesTalks (V.talk shared.now) (V.has_answered shared.now) answerer.old answerer.new (E.seen door.old) (E.seen door.new) }
    ensures turns { Turns result (E.seen door.old) (E.seen door.new) }
{
    match door.next_session() {
        Entry::Session(mut asking, mut telling) => {
            session(rt, shared, answerer, room, &mut asking, &mut telling);
            door.leave(asking, telling);
            true
        }
        Entry::Idle | Entry::Failed => true,
        Entry::End => false,
    }
}

/// Serves the sessions of a door one after another, and gives each back, until the door has none left or took 2^62 turns. Where it
/// fails, it is asked again.
pub fn serve_talks<S, V: Answerer<S>, E: Door, R: Wait + Log>(
    rt: &R,
    shared: &S,
    answerer: &mut V,
    room: &mut LineRoom,
    door: &mut E,
) -> DoorEnd
    requires ready { V.can_answer shared.now answerer.old }
    requires room { IsLineRoom room.old }
    requires none_out { (E.seen door.old).is_out ≡ false }
    requires turns { (E.seen door.old).turns < 2 ^ 62 }
    ensures ready { V.can_answer shared.now answerer.new }
    ensures room { IsLineRoom room.new }
    ensures served { ServesTalks (V.talk shared.now) (V.has_answered shared.now) answerer.old answerer.new (E.seen door.old) (E.seen door.new) }
    ensures ends { EndsServing result (E.seen door.old) (E.seen door.new) }
{
    for _turn in 0..MOST_TURNS {
        if !serve_next(rt, shared, answerer, room, door) {
            return DoorEnd::End;
        }
    }
    DoorEnd::Worn { turns: MOST_TURNS }
}
