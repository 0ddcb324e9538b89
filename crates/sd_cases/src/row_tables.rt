use crate::many_rows::{copy_all, count, drain, fill};
use crate::row_calls::{Call, Name, read_call};
use sd_case::{Answer, Refusal};
use sd_decimal::Micro;
use sd_rows::Rows;
use std::alloc::{AllocError, Global};
use std::mem;

/// The seed of the hashes by which rows are found.
const SEED: u64 = 0;

/// The rows that a case calls, and spare ones of the same size.
#[derive(Drop)]
struct Tables {
    rows: Rows,
    spare: Rows,
}

/// `PLACES CALL..`: what the calls of a table with so many places answer, one after another.
pub fn calls_of(
    alloc: Global,
    places: u32,
    calls: &[&str],
    out: &mut Answer,
) -> Result<(), Refusal> {
    let mut tables = Tables {
        rows: Rows::open(alloc, places, SEED)?,
        spare: Rows::open(alloc, places, SEED)?,
    };
    tables.answer_all(alloc, calls, out)
}

impl Tables {
    /// Appends what the calls of these words answer.
    fn answer_all(
        &mut self,
        alloc: Global,
        words: &[&str],
        out: &mut Answer,
    ) -> Result<(), Refusal> {
        for (place, word) in words.iter().enumerate() {
            out.text(if place == 0 { " -> " } else { ", " });
            self.answer_word(alloc, word, out)?;
        }
        Ok(())
    }

    fn answer_word(&mut self, alloc: Global, word: &str, out: &mut Answer) -> Result<(), Refusal> {
        match read_call(word) {
            Some(call) => self.answer(alloc, &call, out),
            None => Err(Refusal::Malformed),
        }
    }

    /// Makes a call, and appends what it answered.
    fn answer(&mut self, alloc: Global, call: &Call, out: &mut Answer) -> Result<(), Refusal> {
        match call {
            Call::Find(name) => self.find(name, out),
            Call::Add(name) => out.text(self.add(name)),
            Call::Remove(name) => out.text(self.remove(name)),
            Call::Set(name, base, swaps) => out.text(self.set(name, *base, *swaps)),
            Call::Free => out.number(i128::from(self.rows.free())),
            Call::Len => out.number(i128::from(self.rows.len())),
            Call::Copy => {
                out.number(i128::from(copy_all(&self.rows, &mut self.spare)));
                out.text(" copied");
            }
            Call::Swap => {
                mem::swap(&mut self.rows, &mut self.spare);
                out.text("swapped");
            }
            Call::Fill(range) => return show(fill(alloc, &mut self.rows, *range), out),
            Call::Count(range) => return show(count(alloc, &self.rows, *range), out),
            Call::Drain(range, stride) => {
                return show(drain(alloc, &mut self.rows, *range, *stride), out);
            }
        }
        Ok(())
    }

    /// Appends the base in millionths and the swaps of a row, where it is there.
    fn find(&self, name: &Name, out: &mut Answer) {
        let Some(at) = self.rows.find(name.kind, &name.key) else {
            return out.text("absent");
        };
        match self.rows.row(at) {
            Some(row) => {
                out.number(i128::from(row.base.0));
                out.count("/", u64::from(row.swaps));
            }
            None => out.text("empty"),
        }
    }

    fn add(&mut self, name: &Name) -> &'static str {
        if self.rows.find(name.kind, &name.key).is_some() {
            return "there";
        }
        if self.rows.free() == 0 {
            return "full";
        }
        self.rows.add(name.kind, &name.key);
        "added"
    }

    fn set(&mut self, name: &Name, base: Micro, swaps: u32) -> &'static str {
        match self.rows.find(name.kind, &name.key) {
            Some(at) => {
                self.rows.set(at, base, swaps);
                "set"
            }
            None => "absent",
        }
    }

    fn remove(&mut self, name: &Name) -> &'static str {
        match self.rows.find(name.kind, &name.key) {
            Some(at) => {
                self.rows.remove(at);
                "removed"
            }
            None => "absent",
        }
    }
}

/// Appends a number, where there is one.
fn show(number: Result<u32, AllocError>, out: &mut Answer) -> Result<(), Refusal> {
    out.number(i128::from(number?));
    Ok(())
}
