//! Cases of values: of numbers, names, datagrams, statistics, rings and the rows of a table. Reads a call and its arguments from each
//! line, makes the call, and prints the line with its answer, as in `read 0.0000005 = 1`. Quantities are whole millionths. A line that
//! begins with a number is a table of so many places, with the calls on it.
#![tactic(auto)]

mod datagrams;
mod many_rows;
mod members;
mod names;
mod numbers;
mod rings;
mod row_calls;
mod row_tables;
mod timers;
mod values;

use crate::rings::Asked;
use sd_case::{Answer, Refusal, answer_cases};
use std::alloc::Global;
use std::io;

/// Makes the call of a case.
fn call(alloc: Global, words: &[&str], out: &mut Answer) -> Result<(), Refusal> {
    match words {
        ["nodes", nodes] => rings::nodes(alloc, nodes, out),
        ["owners", nodes, cache, ups, keys @ ..] => {
            rings::owners(alloc, nodes, cache, ups, Asked::Keys, keys, out)
        }
        ["name_owners", nodes, cache, ups, names @ ..] => {
            rings::owners(alloc, nodes, cache, ups, Asked::Names, names, out)
        }
        [places, calls @ ..] if let Ok(places) = places.parse::<u32>() => {
            row_tables::calls_of(alloc, places, calls, out)
        }
        _ => {
            out.text(" = ");
            call_of_values(alloc, words, out)
        }
    }
}

/// Makes a call of statistics, or one of one or two arguments.
fn call_of_values(alloc: Global, words: &[&str], out: &mut Answer) -> Result<(), Refusal> {
    match words {
        ["sorted", values @ ..] => timers::sorted(alloc, values, out),
        ["whole", weight, interval, values @ ..] => {
            timers::whole(alloc, weight, interval, values, out)
        }
        ["pct", threshold, values @ ..] => timers::pct(alloc, threshold, values, out),
        ["bin", from, below, values @ ..] => timers::bin(alloc, from, below, values, out),
        ["distinct", members @ ..] => members::distinct_of(alloc, members, out),
        [call, argument] => call_of_one(alloc, call, argument, out),
        [call, first, second] => call_of_two(alloc, call, first, second, out),
        _ => Err(Refusal::UnknownCall),
    }
}

/// Makes a call of one argument.
fn call_of_one(alloc: Global, call: &str, argument: &str, out: &mut Answer) -> Result<(), Refusal> {
    match call {
        "read" => numbers::read_text(alloc, argument, out),
        "root" => numbers::root_of(argument, out),
        "write" => numbers::text_of(argument, out),
        "write_whole" => numbers::whole_text_of(argument, out),
        "clean" => names::clean_name(alloc, argument, out),
        "key" => names::key_with(alloc, argument, out),
        "pattern" => names::pattern_with(alloc, argument, out),
        "pieces" => datagrams::pieces_of(alloc, argument, out),
        _ => Err(Refusal::UnknownCall),
    }
}

/// Makes a call of two arguments.
fn call_of_two(
    alloc: Global,
    call: &str,
    first: &str,
    second: &str,
    out: &mut Answer,
) -> Result<(), Refusal> {
    match call {
        "weigh" => numbers::weigh_value(first, second, out),
        "per_second" => numbers::total_per_second(first, second, out),
        "ratio" => numbers::ratio_of(first, second, out),
        "shard_of" => names::shard_of_key(alloc, first, second, out),
        "matches" => names::matches_key(alloc, first, second, out),
        "has_part" => names::has_part_of(alloc, first, second, out),
        "compare_keys" => names::compare_keys(alloc, first, second, out),
        "compare_kinds" => names::compare_kinds(first, second, out),
        _ => Err(Refusal::UnknownCall),
    }
}

fn main(rt: HostRuntime) -> io::Result<()> {
    answer_cases(&rt, rt.alloc(), call)
}
