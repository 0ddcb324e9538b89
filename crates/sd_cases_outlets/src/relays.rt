//! Texts that a feeder and a worker relay.
ghost use Rattle.std.specs.Prelude.{◌≡◌, ◌≤◌, length, All, IfOk};

use crate::count_gate::CountGate;
use crate::relay::{Done, relay};
use sd_case::{Answer, Refusal, number};
use sd_memory::MemBackend;
use sd_outlet::Worked;
use std::alloc::Global;
use std::sync::Wait;
use std::thread::Threads;

// How many bytes a buffer of a relay holds.
const BYTES: u32 = 64;

/// Appends a count of rounds.
fn show_worked(worked: Worked, out: &mut Answer) {
    out.count("written ", worked.written);
    out.count(", faults ", worked.faults);
}

// So many texts, which are numbers in order.
fn made(alloc: Global, count: u32) -> Result<Vec<Vec<u8>>, Refusal>
    ensures { IfOk result (λ v. (length v.items ≡ count) × All (λ t. length t.items ≤ 64) v.items) }
{
    let mut texts = Vec::new(alloc);
    for k in 0..count {
        let mut text = Vec::new(alloc);
        text.push((k % 256) as u8)?;
        text.push((k / 256 % 256) as u8)?;
        texts.push(text)?;
    }
    Ok(texts)
}

// Whether the lists of a backend are these texts in order, but for the one whose round failed, each ended.
fn in_order(back: &MemBackend, texts: &[Vec<u8>], fail: u64) -> bool {
    let mut place = 0;
    for (text, round) in texts.iter().zip(1u64..) {
        if round == fail {
            continue;
        }
        if place >= back.lists() || back.list(place) != text.as_slice() || !back.is_ended(place) {
            return false;
        }
        place += 1;
    }
    place == back.lists()
}

/// `relay N COUNT FAIL`: a feeder sends so many texts through an outlet of so many buffers, while a worker writes them to a
/// backend whose begin of that number fails. `follow` has the feeder wait for each text until the worker took it.
pub fn relay_case<R: Threads + Wait + Sync>(
    rt: &R,
    alloc: Global,
    words: [&str; 3],
    follows: bool,
    out: &mut Answer,
) -> Result<(), Refusal> {
    let [n, count, fail] = words;
    let n = number::<u32>(n)?;
    let fail = number::<u64>(fail)?;
    if n == 0 {
        return Err(Refusal::Condition);
    }
    let texts = made(alloc, number::<u32>(count)?)?;
    let mut back = MemBackend::open(alloc, 1 << 20, 1 << 16)?;
    back.fail_begin.push(fail)?;
    let gate = CountGate::new();
    let Done {
        worked,
        back,
        followed,
    } = relay(rt, alloc, n, BYTES, &texts, back, &gate, follows)?;
    out.text(": ");
    show_worked(worked, out);
    out.count(", gate passed ", gate.passed());
    out.count(", lists ", back.lists() as u64);
    out.text(if in_order(&back, &texts, fail) {
        " in order"
    } else {
        " out of order"
    });
    if follows {
        out.text(", each taken before the next was sent: ");
        out.yes_or_no(followed);
    }
    Ok(())
}
