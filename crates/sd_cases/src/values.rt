use sd_case::{Answer, Refusal, number};
use sd_decimal::{Limit, Line, Micro, Sum, read, write};
use std::alloc::Global;

/// The number that a word writes.
pub fn decimal(word: &str) -> Result<Micro, Refusal> {
    read(word.as_bytes()).map_err(|_| Refusal::Malformed)
}

/// The limit that a word writes: a number, or `inf`.
pub fn limit(word: &str) -> Result<Limit, Refusal> {
    match word {
        "inf" => Ok(Limit::Infinite),
        _ => Ok(Limit::Below(decimal(word)?)),
    }
}

/// The values that words write, each a number, or a number, `*` and how often it stands.
pub fn values(alloc: Global, words: &[&str]) -> Result<Vec<Micro>, Refusal> {
    let mut values = Vec::new(alloc);
    for word in words {
        push_value(&mut values, word)?;
    }
    Ok(values)
}

/// Appends the values that a word writes.
fn push_value(values: &mut Vec<Micro>, word: &str) -> Result<(), Refusal> {
    let (text, count) = word.split_once('*').unwrap_or((word, "1"));
    let value = decimal(text)?;
    for _ in 0..number::<u32>(count)? {
        values.push(value)?;
    }
    Ok(())
}

/// Appends a name and a number.
pub fn show(name: &str, sum: Sum, out: &mut Answer) {
    out.text(name);
    let mut line = Line::new();
    write(sum, &mut line);
    out.bytes(line.as_slice());
}
