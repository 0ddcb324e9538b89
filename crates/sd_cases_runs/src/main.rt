//! Cases of whole runs: reads the words, files and failing calls of a run from each line, runs the program over objects in
//! memory, and prints the line with all that came of it. A line reads `run WORDS : PARTS`; `cut`, `both` and `slow` make
//! the run in other ways, and `status NAME` asks for a text.
#![tactic(auto)]

mod calls;
mod case;
mod gate;
mod most;
mod passing;
mod report;
mod run;
mod status;
mod traffic;

use sd_case::{Answer, Refusal, answer_cases};
use std::alloc::Global;
use std::random::RandomSource;
use std::sync::Wait;
use std::thread::Threads;
use std::{io, time};

/// Runs what a case says.
fn run_case<R>(rt: &R, alloc: Global, words: &[&str], out: &mut Answer) -> Result<(), Refusal>
where
    R: Threads + Wait + RandomSource + time::Clock + Sync,
{
    match words {
        ["run", parts @ ..] => run::whole(rt, alloc, parts, out),
        ["cut", record, parts @ ..] => run::each_truncation(rt, alloc, record, parts, out),
        ["both", first, second, parts @ ..] => run::by_both(rt, alloc, first, second, parts, out),
        ["slow", most, parts @ ..] => run::by_slow(rt, alloc, most, parts, out),
        ["status", fields @ ..] => status::texts_of(alloc, fields, out),
        _ => Err(Refusal::UnknownCall),
    }
}

fn main(rt: HostRuntime) -> io::Result<()> {
    answer_cases(
        &rt,
        rt.alloc(),
        |alloc: Global, words: &[&str], out: &mut Answer| { run_case(&rt, alloc, words, out) },
    )
}
