use crate::case::Case;
use crate::gate::Order;
use crate::most::{Most, bytes_of_word};
use crate::report::report;
use sd_case::{Answer, Refusal, bytes_of};
use sd_memory::MemBackend;
use sd_top::statsd;
use std::alloc::Global;
use std::random::RandomSource;
use std::sync::Wait;
use std::thread::Threads;
use std::time;

/// Runs the program, and appends all that came of it.
fn execute<R: Threads + Wait + RandomSource + time::Clock + Sync>(
    rt: &R,
    alloc: Global,
    case: &Case,
    out: &mut Answer,
) -> Result<(), Refusal> {
    let gate = Order::of(alloc, &case.holds)?;
    run_past(rt, alloc, case, &gate, out)?;
    gate.show(out);
    Ok(())
}

/// Runs the program past a gate, appends all that came of it, and answers how many bytes Graphite was given.
fn run_past<R: Threads + Wait + RandomSource + time::Clock + Sync>(
    rt: &R,
    alloc: Global,
    case: &Case,
    gate: &Order,
    out: &mut Answer,
) -> Result<u64, Refusal> {
    let mut world = case.world(alloc, gate)?;
    let status = statsd(rt, alloc, &case.words, &mut world);
    report(&status, &world, out);
    Ok(bytes_in(&world.backs.graphite.object.object))
}

/// `run WORDS : PARTS`: what comes of a run.
pub(crate) fn whole<R: Threads + Wait + RandomSource + time::Clock + Sync>(
    rt: &R,
    alloc: Global,
    parts: &[&str],
    out: &mut Answer,
) -> Result<(), Refusal> {
    execute(rt, alloc, &Case::of(alloc, parts)?, out)
}

/// `cut RECORD WORDS : PARTS`: what comes of the run whose script is that of the parts and behind it the record cut
/// short at each place, from 0 bytes of it to all but one. It is answered once for places in a row that give the
/// same.
pub(crate) fn each_truncation<R: Threads + Wait + RandomSource + time::Clock + Sync>(
    rt: &R,
    alloc: Global,
    record: &str,
    parts: &[&str],
    out: &mut Answer,
) -> Result<(), Refusal> {
    let record = bytes_of(alloc, record)?;
    let mut previous = String::new(alloc);
    for len in 0..record.len() {
        let report = report_of_prefix(rt, alloc, &record[..len], parts)?;
        if report != previous {
            out.count("\n  from ", len as u64);
            out.text(" bytes on:");
            out.text(&report);
            previous = report;
        }
    }
    Ok(())
}

/// What comes of the run where these bytes stand behind the script.
fn report_of_prefix<R: Threads + Wait + RandomSource + time::Clock + Sync>(
    rt: &R,
    alloc: Global,
    prefix: &[u8],
    parts: &[&str],
) -> Result<String, Refusal> {
    let mut case = Case::of(alloc, parts)?;
    case.script.extend_from_slice(prefix)?;
    report_of(rt, alloc, &case)
}

/// What comes of a run.
fn report_of<R: Threads + Wait + RandomSource + time::Clock + Sync>(
    rt: &R,
    alloc: Global,
    case: &Case,
) -> Result<String, Refusal> {
    let mut report = Answer::new(alloc);
    execute(rt, alloc, case, &mut report)?;
    report.finish()
}

/// `both TEXT TEXT WORDS : PARTS`: how many bytes Graphite is given in the run with each of two settings files, and whether
/// all that comes of the two runs is the same.
pub(crate) fn by_both<R: Threads + Wait + RandomSource + time::Clock + Sync>(
    rt: &R,
    alloc: Global,
    first: &str,
    second: &str,
    parts: &[&str],
    out: &mut Answer,
) -> Result<(), Refusal> {
    let mut case = Case::of(alloc, parts)?;
    run_by_both(rt, alloc, &mut case, first, second, out)
}

/// Runs a case with each of two settings files.
fn run_by_both<R: Threads + Wait + RandomSource + time::Clock + Sync>(
    rt: &R,
    alloc: Global,
    case: &mut Case,
    first: &str,
    second: &str,
    out: &mut Answer,
) -> Result<(), Refusal> {
    case.settings = bytes_of(alloc, first)?;
    let first = report_by(rt, alloc, case, out)?;
    case.settings = bytes_of(alloc, second)?;
    let second = report_by(rt, alloc, case, out)?;
    show_alike(&first, &second, out);
    Ok(())
}

/// `slow MOST WORDS : PARTS`: how many bytes Graphite is given in the run, and in the same run where no read and no write
/// takes more than so many bytes, and whether all that comes of the two runs is the same.
pub(crate) fn by_slow<R: Threads + Wait + RandomSource + time::Clock + Sync>(
    rt: &R,
    alloc: Global,
    most: &str,
    parts: &[&str],
    out: &mut Answer,
) -> Result<(), Refusal> {
    let most = Most::all(bytes_of_word(most)?);
    let mut case = Case::of(alloc, parts)?;
    run_by_slow(rt, alloc, &mut case, most, out)
}

/// Runs a case, and once more with reads and writes that take no more than this.
fn run_by_slow<R: Threads + Wait + RandomSource + time::Clock + Sync>(
    rt: &R,
    alloc: Global,
    case: &mut Case,
    most: Most,
    out: &mut Answer,
) -> Result<(), Refusal> {
    let whole = report_by(rt, alloc, case, out)?;
    case.most = most;
    let slow = report_by(rt, alloc, case, out)?;
    show_alike(&whole, &slow, out);
    Ok(())
}

/// Appends whether two texts are the same.
fn show_alike(first: &String, second: &String, out: &mut Answer) {
    out.text(if first == second {
        "\n  the same"
    } else {
        "\n  not the same"
    });
}

/// What comes of the run. The number of Graphite's bytes is appended.
fn report_by<R: Threads + Wait + RandomSource + time::Clock + Sync>(
    rt: &R,
    alloc: Global,
    case: &Case,
    out: &mut Answer,
) -> Result<String, Refusal> {
    let gate = Order::of(alloc, &case.holds)?;
    let mut text = Answer::new(alloc);
    let bytes = run_past(rt, alloc, case, &gate, &mut text)?;
    out.count("\n  graphite ", bytes);
    text.finish()
}

/// How many bytes a backend was given.
fn bytes_in(backend: &MemBackend) -> u64 {
    let mut bytes = 0u64;
    for place in 0..backend.lists() {
        bytes = bytes.saturating_add(backend.list(place).len() as u64);
    }
    bytes
}
