//! Cases of settings, shards, tables and records. Reads a case from each line, and prints it with its answers. A line of a shard or a
//! table of samples reads as in `shard 2/3 none a:1|c swap book`: the limits on rows and entries, what else it is opened with, and then
//! steps, each of which is answered on a line. A line of settings has a file, and asks for values, as in `file FILE CALLS`, `all FILE`
//! and `config FILE`.
#![tactic(auto)]

mod read_calls;
mod records;
mod rooms;
mod samples;
mod settings;
mod shards;
mod tables;
mod turns;

use sd_case::{Answer, Refusal, answer_cases};
use std::alloc::Global;
use std::io;

/// Makes the calls of a case.
fn call(alloc: Global, words: &[&str], out: &mut Answer) -> Result<(), Refusal> {
    match words {
        ["shard", limits, kinds, steps @ ..] => {
            shards::steps_on_shard(alloc, limits, kinds, steps, out)
        }
        ["table", limits, settings, ts, tally, steps @ ..] => {
            tables::steps_on_table(alloc, limits, &[settings, ts, tally], steps, out)
        }
        ["room", file] => rooms::open_room(alloc, file, out),
        ["goes_idle", kinds, kind, swaps] => {
            out.text(" = ");
            shards::expires(kinds, kind, swaps, out)
        }
        ["plain"] => settings::show_plain(out),
        [
            call @ ("file" | "all" | "allowed" | "config" | "config_text" | "plan" | "names"),
            file,
            calls @ ..,
        ] => settings::ask(alloc, call, file, calls, out),
        _ => Err(Refusal::UnknownCall),
    }
}

fn main(rt: HostRuntime) -> io::Result<()> {
    answer_cases(&rt, rt.alloc(), call)
}
