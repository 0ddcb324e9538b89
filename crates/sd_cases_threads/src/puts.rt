//! Two threads over one register.
ghost use Rattle.std.specs.Prelude.{◌≡◌, ◌<◌, false, List, map, IfOk};
ghost use Rattle.sd_turn.specs.Turn.{IsSeatOf, number_of};
ghost use Rattle.sd_cases_threads.specs.Puts.{IsLegal, sum_after};
ghost use Rattle.sd_cases_threads.specs.declared.register.Event.{Event};

use crate::register::{Put, Register};
use sd_turn::{Turn, TurnSeat};
use std::alloc::{AllocError, Global};
use std::sync::Wait;
use std::sync::atomic::AtomicU64;
use std::sync::atomic::Ordering::SeqCst;
use std::thread::{Threads, join};

// Adds 1 in two steps, between which another thread may come, unless each has the turn meanwhile.
fn count_up(inside: &AtomicU64) {
    let found = inside.load(SeqCst);
    inside.store(found.wrapping_add(1), SeqCst);
}

/// A seat, and the sums that it was answered, in order.
#[derive(Drop)]
pub struct Putter {
    seat: TurnSeat<Register>,
    found: Vec<u64>,
}

// Puts 1 so many times. The list is lent to each, and has the answers in the end.
fn put_often<R: Wait>(
    rt: &R,
    turn: &Turn<Register>,
    putter: Putter,
    inside: &AtomicU64,
    times: u32,
) -> Putter
    requires { IsSeatOf turn.now putter.seat }
    ensures { IsSeatOf turn.now result.seat }
{
    let Putter {
        mut seat,
        mut found,
    } = putter;
    for _ in 0..times {
        let mut put = Put {
            more: 1,
            found: &mut found,
        };
        let _ = turn.with_turn(rt, &mut seat, &mut put, || count_up(inside));
    }
    Putter { seat, found }
}

/// What two threads did: the register, and the answers that each got.
#[derive(Drop)]
pub struct Done {
    pub register: Register,
    pub first: Vec<u64>,
    pub second: Vec<u64>,
}

/// Two threads put into one register. There is one legal history that leaves its sum, and its log
/// is that of the history.
pub fn put_both<R: Threads + Wait + Sync>(
    rt: &R,
    alloc: Global,
    inside: &AtomicU64,
    first: u32,
    second: u32,
) -> Result<Done, AllocError>
    ensures history { IfOk result (λ d. (log : List Event) × IsLegal 0 log × (d.register.sum ≡ sum_after 0 log) × (d.register.missed ≡ false → d.register.log.items ≡ map (λ (e : Event). e.who) log)) }
{
    let empty = Register {
        seats: 2,
        sum: 0,
        log: Vec::new(alloc),
        missed: false,
    };
    let (turn, mut seats) = Turn::open(alloc, empty, 2)?;
    let Some(seat) = seats.pop() else {
        unreachable!()
    };
    let two = Putter {
        seat,
        found: Vec::new(alloc),
    };
    let Some(seat) = seats.pop() else {
        unreachable!()
    };
    let one = Putter {
        seat,
        found: Vec::new(alloc),
    };
    let shared = &turn;
    let (one, two) = join(
        rt,
        move || -> Putter
            requires { IsSeatOf shared.now one.seat }
            ensures { IsSeatOf shared.entry.now result.seat }
        { put_often(rt, shared, one, inside, first) },
        move || -> Putter
            requires { IsSeatOf shared.now two.seat }
            ensures { IsSeatOf shared.entry.now result.seat }
        { put_often(rt, shared, two, inside, second) },
    );
    let mut back = Vec::new(alloc);
    back.push(one.seat)?;
    back.push(two.seat)?;
    Ok(Done {
        register: turn.close(back),
        first: one.found,
        second: two.found,
    })
}

/// How many seats a turn has that is opened for so many, and the last one's number.
pub fn open_many(alloc: Global, seats: u16) -> Result<(usize, Option<u16>), AllocError>
    requires { 0 < seats }
{
    let empty = Register {
        seats,
        sum: 0,
        log: Vec::new(alloc),
        missed: false,
    };
    let (_turn, seats) = Turn::open(alloc, empty, seats)?;
    Ok((seats.len(), seats.last().map(|seat| seat.number())))
}
