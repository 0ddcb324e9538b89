//! Cases of threads over values behind a turn, a desk and a pool. Each line of the input names one, and is printed with its answer,
//! which is the same whatever the order of the threads. It reads `turn`, `seats`, `desk`, `facts`, `shared` or `held`, with arguments.
#![tactic(auto)]

mod desk;
mod held;
mod puts;
mod register;
mod shared;

use desk::{Counted, add_and_take, each_call};
use held::hold_one;
use puts::{Done, open_many, put_both};
use sd_case::{Answer, Refusal, answer_cases, number};
use sd_desk::Tally;
use sd_line::{Lines, Sample};
use shared::submit_and_swap;
use std::alloc::Global;
use std::io;
use std::sync::Wait;
use std::sync::atomic::AtomicU64;
use std::sync::atomic::Ordering::SeqCst;
use std::thread::Threads;

// How often a seat stands in the log.
fn by_seat(log: &[u16], number: u16) -> u64 {
    log.iter().filter(|&&n| n == number).count() as u64
}

fn added_up(answers: &[u64]) -> u64 {
    answers.iter().fold(0, |sum: u64, &n| sum.wrapping_add(n))
}

fn rise(answers: &[u64]) -> bool {
    let mut last = None;
    for &n in answers {
        if Some(n) <= last {
            return false;
        }
        last = Some(n);
    }
    true
}

// `turn FIRST SECOND`: two threads put so often. Each seat puts 1 each time, and is answered the sum before it. What is called inside
// the turn counts too.
fn turn_case<R: Threads + Wait + Sync>(
    rt: &R,
    alloc: Global,
    first: &str,
    second: &str,
    out: &mut Answer,
) -> Result<(), Refusal> {
    let inside = AtomicU64::new(0);
    let done = put_both(rt, alloc, &inside, number(first)?, number(second)?)?;
    show_done(&done, out);
    out.count(", counted inside ", inside.load(SeqCst));
    Ok(())
}

fn show_done(done: &Done, out: &mut Answer) {
    let (log, first, second) = (&done.register.log, &done.first, &done.second);
    out.count(": sum ", done.register.sum);
    out.count(", in the log ", by_seat(log, 0));
    out.count(" and ", by_seat(log, 1));
    out.count(", answers ", first.len() as u64);
    out.count(" and ", second.len() as u64);
    out.count(
        ", which add up to ",
        added_up(first).wrapping_add(added_up(second)),
    );
    out.text(if rise(first) && rise(second) {
        ", in order"
    } else {
        ", out of order"
    });
}

// `seats SEATS`: a turn for so many seats.
fn seats_case(alloc: Global, seats: &str, out: &mut Answer) -> Result<(), Refusal> {
    let seats = number::<u16>(seats)?;
    if seats == 0 {
        return Err(Refusal::Condition);
    }
    let (count, last) = open_many(alloc, seats)?;
    out.count(": ", count as u64);
    if let Some(last) = last {
        out.count(", the last ", u64::from(last));
    }
    Ok(())
}

fn show_tally(t: Tally, out: &mut Answer) {
    out.count("", t.packets);
    out.count(" packets, ", t.lines);
    out.count(" lines, ", t.bad);
    out.count(" bad, ", t.dropped);
    out.text(" dropped");
}

// `desk FIRST SECOND`: the first thread adds so many datagrams of 2 pieces, the second so many of 5 pieces, of which 3 are bad, while
// a third takes the tally a thousand times.
fn desk_case<R: Threads + Wait + Sync>(
    rt: &R,
    alloc: Global,
    first: &str,
    second: &str,
    out: &mut Answer,
) -> Result<(), Refusal> {
    let Counted { totals, taken } = add_and_take(rt, alloc, number(first)?, number(second)?)?;
    out.text(": ");
    show_tally(totals, out);
    out.text(", taken with the last: ");
    show_tally(taken, out);
    Ok(())
}

// `facts LINES BAD`: each call of a shared desk once.
fn facts_case<R: Wait>(
    rt: &R,
    alloc: Global,
    lines: &str,
    bad: &str,
    out: &mut Answer,
) -> Result<(), Refusal> {
    let facts = each_call(rt, alloc, number(lines)?, number(bad)?)?;
    out.count(": start ", facts.start);
    out.count(", last ", facts.last);
    out.text(", ");
    show_tally(facts.totals, out);
    out.text(if facts.up { ", up" } else { ", down" });
    out.count(", rounds ", facts.rounds);
    out.count(", faults ", facts.faults.graphite);
    out.count(" ", facts.faults.console);
    out.count(" ", facts.repeater_faults);
    out.count(" ", facts.admin_faults);
    Ok(())
}

// The sample of a line.
fn sample_of(line: &str) -> Result<Sample, Refusal> {
    match Lines::new(line.as_bytes()).next() {
        Some(Ok(sample)) => Ok(sample),
        _ => Err(Refusal::Malformed),
    }
}

// `shared LINE`: two threads submit a sample while a third swaps its shard.
fn shared_case<R: Threads + Wait + Sync>(
    rt: &R,
    alloc: Global,
    line: &str,
    out: &mut Answer,
) -> Result<(), Refusal> {
    let book = submit_and_swap(rt, alloc, &sample_of(line)?, line.as_bytes())?;
    out.count(": taken ", book.taken);
    out.count(
        ", flushed and held ",
        book.flushed.saturating_add(book.held),
    );
    out.count(", dropped ", book.dropped);
    out.count(", deleted ", book.deleted);
    Ok(())
}

// `held LINE`: one thread has the turn of a shard, and another submits a sample meanwhile.
fn held_case<R: Threads + Wait + Sync>(
    rt: &R,
    alloc: Global,
    line: &str,
    out: &mut Answer,
) -> Result<(), Refusal> {
    let held = hold_one(rt, alloc, &sample_of(line)?)?;
    out.text(": answered inside ");
    out.yes_or_no(held.inside);
    out.text(", taken ");
    out.yes_or_no(held.taken);
    Ok(())
}

fn call<R>(rt: &R, alloc: Global, words: &[&str], out: &mut Answer) -> Result<(), Refusal>
where
    R: Threads + Wait + Sync,
{
    match words {
        ["turn", first, second] => turn_case(rt, alloc, first, second, out),
        ["seats", seats] => seats_case(alloc, seats, out),
        ["desk", first, second] => desk_case(rt, alloc, first, second, out),
        ["facts", lines, bad] => facts_case(rt, alloc, lines, bad, out),
        ["shared", line] => shared_case(rt, alloc, line, out),
        ["held", line] => held_case(rt, alloc, line, out),
        _ => Err(Refusal::UnknownCall),
    }
}

fn main(rt: HostRuntime) -> io::Result<()> {
    answer_cases(
        &rt,
        rt.alloc(),
        |alloc: Global, words: &[&str], out: &mut Answer| { call(&rt, alloc, words, out) },
    )
}
