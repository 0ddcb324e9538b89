//! How a pool is opened.
ghost use Rattle.std.specs.Prelude.{◌≡◌, ◌+◌, ◌<◌, ◌≤◌, [], length, map, vec_len, vec_capacity, All, IfOk};
ghost use Rattle.std.specs.List.{AllByRecursion};
ghost use Rattle.sd_epoch.specs.Limits.{limits_of as limits_seen, AreLimits};
ghost use Rattle.sd_shard.specs.Policy.{policy_of as policy_seen};
ghost use Rattle.sd_turn.specs.Lists.{span};
ghost use Rattle.sd_turn.specs.Turn.{opened_with, number_of, seats_of, IsNewSeatOf as IsNewTurnSeatOf};
ghost use Rattle.sd_pool.specs.Behind.{setup_of};
ghost use Rattle.sd_pool.specs.Along.{Along};
ghost use Rattle.sd_pool.specs.Pool.{IsNewSeatOf, IsRoomOf, limits_of, policy_of, receivers_of, seats_in, shards_of, who_is};
ghost use Rattle.sd_pool.specs.Dealing.{AreDealt, Given, the_setup};

use crate::pool::{Pool, ShardTurn};
use crate::seat::{Room, Seat, Seats};
use crate::value::{ShardValue, caller};
use sd_epoch::Limits;
use sd_shard::Policy;
use sd_turn::{Turn, TurnSeat};
use std::alloc::{AllocError, Global};

// Callers without a seat of any turn yet: the receivers, the flusher and the admin.
fn open_callers(alloc: Global, receivers: u16) -> Result<Vec<Seat>, AllocError>
    requires { receivers ≤ 17 }
    ensures len { IfOk result (λ all. length all.items ≡ receivers + 2) }
    ensures dealt { IfOk result (λ all. AreDealt [] receivers 0 all.items) }
{
    let mut all = Vec::new(alloc);
    for number in 0..receivers + 2 {
        all.push(Seat {
            who: caller(receivers, number),
            seats: Vec::new(alloc),
        })?;
    }
    Ok(all)
}

// The turn of an empty shard, and its seats.
fn open_turn(
    alloc: Global,
    limits: Limits,
    policy: Policy,
    number: u16,
    shards: u16,
    receivers: u16,
    seed: u64,
) -> Result<(Turn<ShardValue>, Vec<TurnSeat<ShardValue>>), AllocError>
    requires limits { AreLimits (limits_seen limits) }
    requires receivers { receivers ≤ 17 }
    ensures setup { IfOk result (λ r. setup_of (opened_with r.0) ≡ the_setup (limits_seen limits) (policy_seen policy) shards receivers number) }
    ensures numbers { IfOk result (λ r. map number_of r.1.items ≡ span 0 (receivers + 2)) }
    ensures seats { IfOk result (λ r. All (IsNewTurnSeatOf r.0) r.1.items) }
{
    let value = ShardValue::open(alloc, limits, policy, number, shards, receivers, seed)?;
    Turn::open(alloc, value, receivers + 2)
}

// Each caller is given the next of a turn's seats.
fn deal(all: &mut [Seat], list: &mut Vec<TurnSeat<ShardValue>>) -> Result<(), AllocError>
    requires { length list.old.items ≡ length all.old }
    ensures given { IfOk result (λ _. Along Given all.old all.new list.old.items) }
    ensures empty { IfOk result (λ _. list.new.items ≡ []) }
    ensures room { IfOk result (λ _. vec_capacity list.new ≡ vec_capacity list.old) }
{
    for seat in all {
        seat.seats.push(list.remove(0))?;
    }
    Ok(())
}

impl Pool {
    /// So many empty shards, each behind a turn of its own, and the seats. Their rows are found by hashes under a seed. Only this call
    /// takes memory.
    ///
    /// # Errors
    ///
    /// Where no memory is left for it.
    pub fn open(
        alloc: Global,
        limits: Limits,
        policy: Policy,
        shards: u16,
        receivers: u16,
        seed: u64,
    ) -> Result<(Pool, Seats), AllocError>
        requires limits { AreLimits (limits_seen limits) }
        requires shards { (1 ≤ shards) × (shards ≤ 16) }
        requires receivers { (1 ≤ receivers) × (receivers ≤ 17) }
        ensures shards { IfOk result (λ r. shards_of r.0 ≡ shards) }
        ensures limits { IfOk result (λ r. limits_of r.0 ≡ limits_seen limits) }
        ensures policy { IfOk result (λ r. policy_of r.0 ≡ policy_seen policy) }
        ensures receivers { IfOk result (λ r. receivers_of r.0 ≡ receivers) }
        ensures callers { IfOk result (λ r. (map who_is r.1.receivers.items ≡ span 0 receivers) × (who_is r.1.flusher ≡ 100) × (who_is r.1.admin ≡ 101)) }
        ensures seats { IfOk result (λ r. AllByRecursion (IsNewSeatOf r.0) (seats_in r.1)) }
        ensures room { IfOk result (λ r. IsRoomOf r.0 r.1.room) }
    {
        let mut all = open_callers(alloc, receivers)?;
        let mut turns = Vec::new(alloc);
        let mut lists = Vec::new(alloc);
        for number in 0..shards {
            let (turn, mut list) = open_turn(
                alloc, limits, policy, number, shards, receivers, seed,
            )?;
            deal(&mut all, &mut list)?;
            turns.push(ShardTurn { turn })?;
            lists.push(list)?;
        }
        let Some(admin) = all.pop() else {
            unreachable!()
        };
        let Some(flusher) = all.pop() else {
            unreachable!()
        };
        let pool = Pool { shards, turns };
        let seats = Seats {
            receivers: all,
            flusher,
            admin,
            room: Room { lists },
        };
        Ok((pool, seats))
    }
}
