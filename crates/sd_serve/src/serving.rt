//! A server from its room to its books.
ghost use Rattle.std.specs.Prelude.{◌≡◌, ◌*◌, ◌<◌, ◌≤◌, ◌^◌, false, length, max};
ghost use Rattle.std.specs.Option.{option_map_or};
ghost use Rattle.sd_model_outside.specs.Backend.{Backend};
ghost use Rattle.sd_outside.specs.Backends.{uses};
ghost use Rattle.sd_serve.specs.Room.{IsRoom, sizing_in, start_in};
ghost use Rattle.sd_serve.specs.Serving.{HasServed, objects_of, run_settings_in};
ghost use Rattle.sd_serve.specs.Workers.{StayObjects};

use crate::crew::{Manned, close, man};
use crate::objects::ObjectsOf;
use crate::outlets::OutCounts;
use crate::room::ServerRoom;
use crate::run_settings::RunSettings;
use crate::workers::{Ends, run_all};
use log::Log;
use sd_desk::Desk;
use sd_flush::round;
use sd_outside::{Clock, Ended};
use sd_run::ObjectTypes;
use sd_shard::Books;
use sd_shared::Shared;
use sd_workers::ends_in;
use std::sync::Wait;
use std::thread::Threads;

/// What a run of the server left: how each receiver ended, in order, and the other workers, what the outlets counted, if there were
/// any, the numbers of each shard, and the desk.
#[derive(Drop)]
pub struct Served {
    pub received: Vec<Ended>,
    pub ends: Ends,
    pub outs: Option<OutCounts>,
    pub books: Books,
    pub desk: Desk,
}

// The second of the last round: now, or that of the round before it, where that is later.
fn last_round_at(now: u64, before: Option<u64>) -> u64
    ensures { result ≡ option_map_or (λ second. max second now) before now }
{
    match before {
        Some(second) => second.max(now),
        None => now,
    }
}

/// Runs the server's workers over the room's sources, each with its run of wires, and both doors, of which that of streams is read
/// only where the room is for that, until all have ended, with outlets before the backends, where the room has them; then makes a
/// last round, at a moment that the clock tells, or at the second of the round before it where that is later, which writes to the
/// backends itself, and closes the pool and the desk. Sources and wires then stand where they stood. It takes no memory.
pub fn serve<K: ObjectTypes, R: Threads + Wait + Log + Sync>(
    rt: &R,
    room: ServerRoom<K::D, K::L>,
    run_settings: &RunSettings<'_, K::G, K::T>,
    packets: &mut Vec<K::D>,
    wires: &mut Vec<K::L>,
    objects: &mut ObjectsOf<'_, '_, '_, '_, K>,
) -> Served
    requires room { IsRoom room }
    requires start { K.T.may_say run_settings.now.clock.now (start_in room) }
    requires packets { (sizing_in room).receivers ≤ length packets.old.items }
    requires wires { (sizing_in room).receivers * (sizing_in room).wires ≤ length wires.old.items }
    requires beat { (K.P.seen objects.old.beat.now).turns < 2 ^ 62 }
    requires door { ((K.E.seen objects.old.door.now).is_out ≡ false) × ((K.E.seen objects.old.door.now).turns < 2 ^ 62) }
    requires streams { ((K.S.seen objects.old.streams.now).is_out ≡ false) × ((K.S.seen objects.old.streams.now).turns < 2 ^ 62) }
    ensures served { HasServed (run_settings_in (sizing_in room) run_settings.now.form.plan.now run_settings.now.form.names.now run_settings.now.settings.now objects.old.backs.now run_settings.now.run_flushes) (K.T.may_say run_settings.now.clock.now)
        (objects_of K.D.seen K.L.seen K.P.seen K.B.seen K.E.seen K.S.seen packets.old.items wires.old.items objects.old.beat.now objects.old.backs.now objects.old.door.now objects.old.streams.now)
        (objects_of K.D.seen K.L.seen K.P.seen K.B.seen K.E.seen K.S.seen packets.new.items wires.new.items objects.new.beat.now objects.new.backs.now objects.new.door.now objects.new.streams.now) result }
    ensures objects { StayObjects objects.old objects.new }
    ensures same_use { (b : Backend) → uses objects.new.backs.now b ≡ uses objects.old.backs.now b }
{
    let Manned {
        pool,
        desk,
        mut services,
        mut posts,
        lists,
        outs,
        ends,
    } = man(room, packets, wires);
    let shared = Shared {
        pool: &pool,
        desk: &desk,
        gate: run_settings.gate,
        clock: run_settings.clock,
        run_flushes: run_settings.run_flushes,
    };
    let (ran, counts) = run_all::<K, R>(
        rt,
        &shared,
        run_settings,
        &mut services,
        posts.as_mut_slice(),
        outs,
        objects,
    );
    round(
        rt,
        &shared,
        &mut services.flusher,
        &run_settings.form,
        last_round_at(run_settings.clock.last(), ran.flusher.last),
        objects.backs,
    );
    let received = ends_in(&posts, ends);
    let (books, desk) = close(pool, desk, lists, services, posts, packets, wires);
    Served {
        received,
        ends: ran,
        outs: counts,
        books,
        desk,
    }
}
