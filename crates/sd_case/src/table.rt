use crate::answer::Answer;
use crate::refusal::Refusal;
use std::alloc::Global;
use std::io::{self, BufRead, BufReader};

/// Reads cases from standard input, one a line, makes the call of each, and prints each line with its answer behind
/// it, or with ` ? ` and why it has none. A heading, which begins with `#`, and an empty line are printed as they are.
///
/// # Errors
///
/// The error of reading or printing at which it stops.
pub fn answer_cases<R, F>(rt: &R, alloc: Global, call: F) -> io::Result<()>
where
    R: Input + Print,
    F: Fn(Global, &[&str], &mut Answer) -> Result<(), Refusal>,
    requires { F.IsAlwaysCallable call }
{
    for line in BufReader::new(alloc, rt.reader())?.lines(alloc) {
        print_case(rt, alloc, &line?, &call)?;
    }
    Ok(())
}

/// Prints a line with its answer.
fn print_case<R, F>(rt: &R, alloc: Global, case: &str, call: &F) -> io::Result<()>
where
    R: Print,
    F: Fn(Global, &[&str], &mut Answer) -> Result<(), Refusal>,
    requires { F.IsAlwaysCallable call.now }
{
    if case.is_empty() || case.starts_with('#') {
        return println!(rt; "{case}");
    }
    match answer_of(alloc, case, call) {
        Ok(answer) => println!(rt; "{case}{answer}"),
        Err(refusal) => println!(rt; "{case} ? {refusal}"),
    }
}

/// What a case answers.
fn answer_of<F>(alloc: Global, case: &str, call: &F) -> Result<String, Refusal>
where
    F: Fn(Global, &[&str], &mut Answer) -> Result<(), Refusal>,
    requires { F.IsAlwaysCallable call.now }
{
    let words: Vec<&str> = case.split(' ').collect(alloc)?;
    let mut answer = Answer::new(alloc);
    call(alloc, &words, &mut answer)?;
    answer.finish()
}
