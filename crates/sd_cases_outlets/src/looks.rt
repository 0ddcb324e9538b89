//! Receivers look while a checker publishes.
ghost use Rattle.std.specs.Prelude.{◌≡◌, IfOk, length};

use crate::lookers::run;
use sd_case::{Answer, Refusal, number};
use std::alloc::{AllocError, Global};
use std::sync::Wait;
use std::thread::Threads;

// Of how many nodes each set is.
const NODES: u8 = 3;

// So many sets, each greater than the one before and than that of all nodes.
fn rising(alloc: Global, count: u32) -> Result<Vec<u64>, AllocError>
    ensures { IfOk result (λ sets. length sets.items ≡ count) }
{
    let mut sets = Vec::new(alloc);
    for number in 0..count {
        sets.push(8 + u64::from(number))?;
    }
    Ok(sets)
}

// Whether no answer is less than the one before.
fn never_fall(answers: &[u64]) -> bool {
    let mut last = 0;
    for &up in answers {
        if up < last {
            return false;
        }
        last = up;
    }
    true
}

/// `looks SETS RECEIVERS LOOKS`: how many answers so many receivers got that look so often each, while a checker publishes so many
/// sets, and of how many receivers the answers never fell.
pub fn looks_together<R: Threads + Wait + Sync>(
    rt: &R,
    alloc: Global,
    sets: &str,
    receivers: &str,
    looks: &str,
    out: &mut Answer,
) -> Result<(), Refusal> {
    let receivers = number::<u16>(receivers)?;
    if receivers == 0 {
        return Err(Refusal::Condition);
    }
    let sets = rising(alloc, number(sets)?)?;
    let answered = run(rt, alloc, NODES, receivers, &sets, number(looks)?)?;
    let mut in_order = 0u64;
    let mut count = 0u64;
    for answers in answered.iter() {
        if never_fall(answers.as_slice()) {
            in_order = in_order.saturating_add(1);
        }
        count = count.saturating_add(answers.len() as u64);
    }
    out.count(": answers ", count);
    out.count(", receivers in order ", in_order);
    Ok(())
}
