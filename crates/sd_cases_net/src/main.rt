//! Runs of the real receivers and beats over sockets of this machine alone. What is printed is the same whatever the order of the
//! threads. No input is read: each line of the output names a run, and says what came of it.
#![tactic(auto)]

mod beats;
mod handed;
mod receivers;

use sd_case::Answer;
use std::io;

fn main(rt: HostRuntime) -> io::Result<()> {
    let mut out = Answer::new(rt.alloc());
    receivers::run(&rt, &mut out)?;
    handed::run(&rt, &mut out)?;
    beats::run(&rt, &rt, &mut out)?;
    match out.finish() {
        Ok(text) => println!(rt; "{text}"),
        Err(_) => println!(rt; "no memory is left"),
    }
}
