//! Three threads over one desk, and one thread that makes each call.
ghost use Rattle.std.specs.Prelude.{◌≡◌, ◌≤◌, ◌^◌};
ghost use Rattle.sd_shared_desk.specs.Shared.{IsSeatOf};

use sd_desk::{Desk, DeskFacts, Mark, Tally};
use sd_outside::PerBackend;
use sd_shared_desk::{DeskSeat, SharedDesk};
use std::alloc::{AllocError, Global};
use std::sync::Wait;
use std::thread::{Threads, join};

/// What a datagram of so many pieces counts for, of which so many are bad.
fn tally_of(lines: u32, bad: u32) -> Tally {
    Tally {
        packets: 1,
        lines: u64::from(lines),
        bad: u64::from(bad),
        dropped: 0,
    }
}

// Adds a tally so many times.
fn add_often<R: Wait>(
    rt: &R,
    desk: &SharedDesk,
    mut own: DeskSeat,
    t: Tally,
    times: u32,
) -> DeskSeat
    requires { IsSeatOf desk.now own }
    ensures { IsSeatOf desk.now result }
{
    for now in 0..times {
        desk.add(rt, t, u64::from(now), &mut own);
    }
    own
}

/// Two seats of a desk.
#[derive(Drop)]
struct Adders {
    one: DeskSeat,
    two: DeskSeat,
}

// Two threads add: the first datagrams of 2 pieces, the second datagrams of 5 pieces, 3 of them bad.
fn add_both<R: Threads + Wait + Sync>(
    rt: &R,
    desk: &SharedDesk,
    adders: Adders,
    first: u32,
    second: u32,
) -> Adders
    requires { IsSeatOf desk.now adders.one × IsSeatOf desk.now adders.two }
    ensures { IsSeatOf desk.now result.one × IsSeatOf desk.now result.two }
{
    let Adders { one, two } = adders;
    let (one, two) = join(
        rt,
        move || -> DeskSeat
            requires { IsSeatOf desk.now one }
            ensures { IsSeatOf desk.entry.now result }
        { add_often(rt, desk, one, tally_of(2, 0), first) },
        move || -> DeskSeat
            requires { IsSeatOf desk.now two }
            ensures { IsSeatOf desk.entry.now result }
        { add_often(rt, desk, two, tally_of(5, 3), second) },
    );
    Adders { one, two }
}

/// A seat, and the tallies that were taken with it, put together.
#[derive(Drop)]
struct Taker {
    own: DeskSeat,
    taken: Tally,
}

// Takes the tally so many times.
fn take_often<R: Wait>(rt: &R, desk: &SharedDesk, taker: Taker, times: u32) -> Taker
    requires { IsSeatOf desk.now taker.own }
    ensures { IsSeatOf desk.now result.own }
{
    let Taker { mut own, mut taken } = taker;
    for _ in 0..times {
        taken = taken.and(desk.take(rt, &mut own));
    }
    Taker { own, taken }
}

/// A desk that was closed: its totals, and the tallies taken with the last one.
#[derive(Drop)]
pub struct Counted {
    pub totals: Tally,
    pub taken: Tally,
}

fn closed(mut desk: Desk, taken: Tally) -> Counted {
    let last = desk.take();
    Counted {
        totals: desk.facts().totals,
        taken: taken.and(last),
    }
}

/// Two threads add to one desk while a third takes.
pub fn add_and_take<R: Threads + Wait + Sync>(
    rt: &R,
    alloc: Global,
    first: u32,
    second: u32,
) -> Result<Counted, AllocError> {
    let (desk, mut seats) = SharedDesk::open(alloc, 0, 3)?;
    let Some(own) = seats.pop() else {
        unreachable!()
    };
    let Some(two) = seats.pop() else {
        unreachable!()
    };
    let Some(one) = seats.pop() else {
        unreachable!()
    };
    let adders = Adders { one, two };
    let taker = Taker {
        own,
        taken: Tally::none(),
    };
    let shared = &desk;
    let (adders, taker) = join(
        rt,
        move || -> Adders
            requires { IsSeatOf shared.now adders.one × IsSeatOf shared.now adders.two }
            ensures { IsSeatOf shared.entry.now result.one × IsSeatOf shared.entry.now result.two }
        { add_both(rt, shared, adders, first, second) },
        move || -> Taker
            requires { IsSeatOf shared.now taker.own }
            ensures { IsSeatOf shared.entry.now result.own }
        { take_often(rt, shared, taker, 1000) },
    );
    let mut back = Vec::new(alloc);
    back.push(adders.one)?;
    back.push(adders.two)?;
    back.push(taker.own)?;
    Ok(closed(desk.close(back), taker.taken))
}

/// Each call once: a desk that starts at 100 gets a datagram of so many pieces and bad pieces so many seconds later.
pub fn each_call<R: Wait>(
    rt: &R,
    alloc: Global,
    lines: u32,
    bad: u32,
) -> Result<DeskFacts, AllocError> {
    let (desk, mut seats) = SharedDesk::open(alloc, 100, 1)?;
    let Some(mut own) = seats.pop() else {
        unreachable!()
    };
    let marks = PerBackend {
        graphite: Mark::Fault,
        console: Mark::Written,
    };
    desk.add(rt, tally_of(lines, bad), 100 + u64::from(lines), &mut own);
    let _ = desk.take(rt, &mut own);
    desk.set_health(rt, false, &mut own);
    desk.mark(rt, marks, &mut own);
    desk.admin_fault(rt, &mut own);
    desk.repeater_faults(rt, bad, &mut own);
    Ok(desk.facts(rt, &mut own))
}
