//! Cases of threads over an outlet and over a set of nodes that are up. Each line of the input names one, and is printed with its
//! answer, which is the same whatever the order of the threads. It reads `cell`, `looks`, `relay` or `follow`, with arguments.
#![tactic(auto)]

mod cell;
mod count_gate;
mod looker;
mod lookers;
mod looks;
mod relay;
mod relays;

use sd_case::{Answer, Refusal, answer_cases};
use std::alloc::Global;
use std::io;
use std::sync::Wait;
use std::thread::Threads;

fn call<R>(rt: &R, alloc: Global, words: &[&str], out: &mut Answer) -> Result<(), Refusal>
where
    R: Threads + Wait + Sync,
{
    match words {
        ["cell", nodes, receivers, steps @ ..] => {
            cell::steps_on_cell(rt, alloc, nodes, receivers, steps, out)
        }
        ["looks", sets, receivers, looks] => {
            looks::looks_together(rt, alloc, sets, receivers, looks, out)
        }
        ["relay", n, count, fail] => relays::relay_case(rt, alloc, [n, count, fail], false, out),
        ["follow", n, count, fail] => relays::relay_case(rt, alloc, [n, count, fail], true, out),
        _ => Err(Refusal::UnknownCall),
    }
}

fn main(rt: HostRuntime) -> io::Result<()> {
    answer_cases(
        &rt,
        rt.alloc(),
        |alloc: Global, words: &[&str], out: &mut Answer| { call(&rt, alloc, words, out) },
    )
}
