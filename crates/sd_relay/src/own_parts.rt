//! What the threads of a proxy have of its cell and of its desk: each a pass and a seat, in one value while the proxy runs, and apart
//! when both are opened and closed.
ghost use Rattle.std.specs.Prelude.{◌≡◌, ◌+◌, ◌<◌, ◌≤◌, [], ◌∷◌, ◌++◌, All, IfOk, if◌then◌else◌, length, map, option_to_list, vec_capacity};
ghost use Rattle.sd_model_live.specs.Port.{ProxyFacts};
ghost use Rattle.sd_model_live.specs.Proxy.{all_of};
ghost use Rattle.sd_live.specs.Looks.{Begins};
ghost use Rattle.sd_live.specs.Live.{IsCheckerOf, IsPassOf, seen};
ghost use Rattle.sd_proxy_desk.specs.Shared.{History, IsSeatOf, seats_of};
ghost use Rattle.sd_talk.specs.Room.{IsLineRoom};
ghost use Rattle.sd_relay.specs.Owns.{IsHubFor, pass_of, passes_in, seat_of, seats_in};

use crate::port::PortRoom;
use sd_proxy::{ProxyDesk, ProxyPass, ProxySeat, UpCell, UpPass, UpPasses};
use sd_talk::LineRoom;
use sd_workers::{put_first, take_first};
use std::alloc::{AllocError, Global};
use std::sync::Wait;

// The most receivers, beside which the desk has a seat for the checker, one for the port, and one for the reader of lines.
const MOST_RECEIVERS: u16 = u16::MAX - 3;

/// What each thread has, and room for all passes and for all seats, apart.
#[derive(Drop)]
pub(crate) struct OwnParts {
    pub receivers: Vec<ProxyPass>,
    pub checker: ProxyPass,
    pub port: PortRoom,
    pub lines: Option<ProxyPass>,
    pub passes: Vec<UpPass>,
    pub seats: Vec<ProxySeat>,
}

/// The cell and the desk of a proxy, and what each of its threads has of them.
#[derive(Drop)]
pub(crate) struct HubRoom {
    pub cell: UpCell,
    pub desk: ProxyDesk,
    pub owns: OwnParts,
}

// Takes the first of both lists.
fn take_own(passes: &mut Vec<UpPass>, seats: &mut Vec<ProxySeat>) -> ProxyPass
    requires passes { 0 < length passes.old.items }
    requires seats { 0 < length seats.old.items }
    ensures passes { passes.old.items ≡ result.pass ∷ passes.new.items }
    ensures seats { seats.old.items ≡ result.seat ∷ seats.new.items }
    ensures pass_room { vec_capacity passes.new ≡ vec_capacity passes.old }
    ensures seat_room { vec_capacity seats.new ≡ vec_capacity seats.old }
{
    ProxyPass {
        pass: take_first(passes),
        seat: take_first(seats),
    }
}

/// Opens the cell of so many nodes and the desk, for so many receivers, which have the first seats, the checker, which has the next,
/// the keeper of the port, which has the one behind it, and the reader of lines, where there is one, which has the last.
///
/// # Errors
///
/// Where no memory is left for it, or there are more receivers than the desk can have.
pub(crate) fn open_hub(
    alloc: Global,
    nodes: u8,
    receivers: u16,
    has_lines: bool,
) -> Result<HubRoom, AllocError>
    requires { (0 < nodes) × (nodes ≤ 64) }
    ensures { IfOk result (IsHubFor (all_of nodes ∷ []) nodes receivers (if has_lines then 1 else 0)) }
{
    if receivers > MOST_RECEIVERS {
        return Err(AllocError);
    }
    let others = 1 + u16::from(has_lines);
    let (cell, passes) = UpCell::open(alloc, nodes, receivers + others)?;
    let (desk, seats) = ProxyDesk::open(alloc, receivers + others + 1)?;
    let made = Vec::with_capacity(alloc, usize::from(receivers))?;
    let line = LineRoom::open(alloc)?;
    Ok(HubRoom {
        cell,
        desk,
        owns: paired(receivers, has_lines, passes, seats, made, line),
    })
}

// Pairs passes and seats: so many for receivers, in order, then the checker's and the port's, and then those of the reader of lines,
// where there is one.
fn paired(
    count: u16,
    has_lines: bool,
    passes: UpPasses,
    mut seats: Vec<ProxySeat>,
    mut made: Vec<ProxyPass>,
    line: LineRoom,
) -> OwnParts
    requires none { made.items ≡ [] }
    requires room { count ≤ vec_capacity made }
    requires passes { length passes.receivers.items ≡ count + 1 + (if has_lines then 1 else 0) }
    requires seats { length seats.items ≡ count + 2 + (if has_lines then 1 else 0) }
    ensures count { length result.receivers.items ≡ count }
    ensures lines { length (option_to_list result.lines) ≡ (if has_lines then 1 else 0) }
    ensures passes { passes.receivers.items ≡ passes_in result }
    ensures checker { result.checker.pass ≡ passes.checker }
    ensures seats { seats.items ≡ seats_in result }
    ensures line { result.port.line ≡ line }
    ensures none { (result.passes.items ≡ []) × (result.seats.items ≡ []) }
    ensures pass_room { length passes.receivers.items ≤ vec_capacity result.passes }
    ensures seat_room { length seats.items ≤ vec_capacity result.seats }
{
    let UpPasses {
        checker,
        mut receivers,
    } = passes;
    for _ in 0..count {
        made.push_reserved(take_own(&mut receivers, &mut seats));
    }
    let checker = ProxyPass {
        pass: checker,
        seat: take_first(&mut seats),
    };
    let own = take_own(&mut receivers, &mut seats);
    let lines = take_own_if(has_lines, &mut receivers, &mut seats);
    OwnParts {
        receivers: made,
        checker,
        port: PortRoom { own, line },
        lines,
        passes: receivers,
        seats,
    }
}

// Takes the first of both lists, where that is wanted.
fn take_own_if(
    wanted: bool,
    passes: &mut Vec<UpPass>,
    seats: &mut Vec<ProxySeat>,
) -> Option<ProxyPass>
    requires passes { (if wanted then 1 else 0) ≤ length passes.old.items }
    requires seats { (if wanted then 1 else 0) ≤ length seats.old.items }
    ensures count { length (option_to_list result) ≡ (if wanted then 1 else 0) }
    ensures passes { passes.old.items ≡ map pass_of (option_to_list result) ++ passes.new.items }
    ensures seats { seats.old.items ≡ map seat_of (option_to_list result) ++ seats.new.items }
    ensures pass_room { vec_capacity passes.new ≡ vec_capacity passes.old }
    ensures seat_room { vec_capacity seats.new ≡ vec_capacity seats.old }
{
    if !wanted {
        return None;
    }
    Some(take_own(passes, seats))
}

// Puts what a thread has, if there is one, before what is in both lists.
fn put_own(own: Option<ProxyPass>, passes: &mut Vec<UpPass>, seats: &mut Vec<ProxySeat>)
    requires passes { length (option_to_list own) + length passes.old.items ≤ vec_capacity passes.old }
    requires seats { length (option_to_list own) + length seats.old.items ≤ vec_capacity seats.old }
    ensures passes { passes.new.items ≡ map pass_of (option_to_list own) ++ passes.old.items }
    ensures seats { seats.new.items ≡ map seat_of (option_to_list own) ++ seats.old.items }
    ensures pass_room { vec_capacity passes.new ≡ vec_capacity passes.old }
    ensures seat_room { vec_capacity seats.new ≡ vec_capacity seats.old }
{
    if let Some(own) = own {
        put_first(passes, own.pass);
        put_first(seats, own.seat);
    }
}

// Puts what threads have before what is in both lists, in order.
fn put_apart(mut owns: Vec<ProxyPass>, passes: &mut Vec<UpPass>, seats: &mut Vec<ProxySeat>)
    requires passes { length owns.items + length passes.old.items ≤ vec_capacity passes.old }
    requires seats { length owns.items + length seats.old.items ≤ vec_capacity seats.old }
    ensures passes { passes.new.items ≡ map pass_of owns.items ++ passes.old.items }
    ensures seats { seats.new.items ≡ map seat_of owns.items ++ seats.old.items }
{
    while let Some(own) = owns.pop() {
        put_first(passes, own.pass);
        put_first(seats, own.seat);
    }
}

/// Closes the cell over all passes, and the desk over all seats. What each has seen of the sets is a beginning of what the checker has,
/// and what each did is its own in the desk's one history.
pub(crate) fn close_hub<R: Wait>(rt: &R, cell: UpCell, desk: ProxyDesk, owns: OwnParts)
    requires none { (owns.passes.items ≡ []) × (owns.seats.items ≡ []) }
    requires pass_room { length owns.receivers.items + 1 + length (option_to_list owns.lines) ≤ vec_capacity owns.passes }
    requires seat_room { length owns.receivers.items + 2 + length (option_to_list owns.lines) ≤ vec_capacity owns.seats }
    requires checker { IsCheckerOf cell owns.checker.pass }
    requires passes { All (IsPassOf cell) (passes_in owns) }
    requires seats { All (IsSeatOf desk) (seats_in owns) }
    requires count { length owns.receivers.items + 2 + length (option_to_list owns.lines) ≡ seats_of desk }
    ensures begins { All (λ p. Begins (seen p) (seen owns.checker.pass)) (passes_in owns) }
    ensures history { (facts : ProxyFacts) × History desk (seats_in owns) facts }
{
    let OwnParts {
        receivers,
        checker,
        port,
        lines,
        mut passes,
        mut seats,
    } = owns;
    let PortRoom { own, line: _ } = port;
    put_own(lines, &mut passes, &mut seats);
    put_first(&mut passes, own.pass);
    put_first(&mut seats, own.seat);
    put_first(&mut seats, checker.seat);
    put_apart(receivers, &mut passes, &mut seats);
    let passes = UpPasses {
        checker: checker.pass,
        receivers: passes,
    };
    cell.close(rt, passes);
    desk.close(seats);
}
