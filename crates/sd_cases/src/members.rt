use sd_case::{Answer, Refusal, bytes_of};
use sd_line::Member;
use sd_stats::distinct;
use std::alloc::Global;

/// `distinct MEMBER..`.
pub fn distinct_of(alloc: Global, words: &[&str], out: &mut Answer) -> Result<(), Refusal> {
    let mut members = Vec::new(alloc);
    for word in words {
        members.push(member(alloc, word)?)?;
    }
    out.number(i128::from(distinct(&mut members)));
    Ok(())
}

/// The member that a word writes.
fn member(alloc: Global, word: &str) -> Result<Member, Refusal> {
    let mut member = Member::new();
    for byte in &bytes_of(alloc, word)? {
        member.try_push(*byte).map_err(|_| Refusal::Condition)?;
    }
    Ok(member)
}
