//! Runs of the real links, probes and doors over TCP on this machine alone. What is printed is the same whatever the order of the
//! threads. No input is read: each line of the output names a run, and says what came of it.
#![tactic(auto)]

mod doors;
mod links;
mod probes;

use sd_case::Answer;
use std::io;

fn main(rt: HostRuntime) -> io::Result<()> {
    let mut out = Answer::new(rt.alloc());
    links::run(&rt, &rt, &mut out)?;
    probes::run(&rt, &rt, &mut out)?;
    doors::run(&rt, &mut out)?;
    match out.finish() {
        Ok(text) => println!(rt; "{text}"),
        Err(_) => println!(rt; "no memory is left"),
    }
}
