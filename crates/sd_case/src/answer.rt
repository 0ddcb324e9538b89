ghost use Rattle.std.specs.Prelude.{IsOkUnless};

use crate::refusal::Refusal;
use std::alloc::{AllocError, Global};
use std::fmt::Debug;

// how many equal bytes are shown as a repetition
const MANY: usize = 32;

/// What a case answers, as it is printed. Where no memory is left for a part of it, it has no text in the end.
#[derive(Drop)]
pub struct Answer {
    out: String,
    is_whole: bool,
}

impl Answer {
    /// An answer without text.
    pub fn new(alloc: Global) -> Answer {
        Answer {
            out: String::new(alloc),
            is_whole: true,
        }
    }

    /// Appends a text.
    pub fn text(&mut self, text: &str) {
        let pushed = self.out.push_str(text);
        self.is_whole &= pushed.is_ok();
    }

    /// Appends a whole number.
    pub fn number(&mut self, number: i128) {
        let written = write!(&mut self.out, "{number}");
        self.is_whole &= written.is_ok();
    }

    /// Appends a text and a count.
    pub fn count(&mut self, text: &str, count: u64) {
        self.text(text);
        self.number(i128::from(count));
    }

    /// Appends `yes` or `no`.
    pub fn yes_or_no(&mut self, answer: bool) {
        self.text(if answer { "yes" } else { "no" });
    }

    /// Appends a value as `{:?}` writes it.
    pub fn debug<T: Debug>(&mut self, value: &T) {
        let written = write!(&mut self.out, "{value:?}");
        self.is_whole &= written.is_ok();
    }

    /// Appends bytes as a case writes them, where many equal bytes in a row are a repetition.
    pub fn bytes(&mut self, bytes: &[u8]) {
        let shown = show(&mut self.out, bytes);
        self.is_whole &= shown.is_ok();
    }

    /// Begins the line of a step.
    pub fn step(&mut self, step: &str) {
        self.text("\n  ");
        self.text(step);
        self.text(": ");
    }

    /// Appends the lines of a text. The last is followed by `(cut)` where no newline ends it.
    pub fn lines(&mut self, text: &[u8]) {
        for line in text.split_inclusive(|byte| *byte == b'\n') {
            self.text("\n    ");
            match line.strip_suffix(b"\n") {
                Some(whole) => self.words(whole),
                None => {
                    self.words(line);
                    self.text(" (cut)");
                }
            }
        }
    }

    /// Appends words of bytes with the spaces between them.
    pub fn words(&mut self, line: &[u8]) {
        for (place, word) in line.split(|byte| *byte == b' ').enumerate() {
            if place > 0 {
                self.text(" ");
            }
            self.bytes(word);
        }
    }

    /// The whole text.
    ///
    /// # Errors
    ///
    /// `OutOfMemory` where a part is missing.
    pub fn finish(self) -> Result<String, Refusal>
        ensures cause { IsOkUnless result Refusal.OutOfMemory }
    {
        if self.is_whole {
            Ok(self.out)
        } else {
            Err(Refusal::OutOfMemory)
        }
    }
}

/// Appends bytes as a case writes them.
fn show(out: &mut String, bytes: &[u8]) -> Result<(), AllocError> {
    if bytes.is_empty() {
        return out.push_str("\"\"");
    }
    for run in bytes.chunk_by(|a, b| a == b) {
        if run.len() > MANY {
            out.push_str("{")?;
            show_byte(out, run[0])?;
            write!(out, "*{}}}", run.len())?;
        } else {
            for byte in run {
                show_byte(out, *byte)?;
            }
        }
    }
    Ok(())
}

/// Appends a byte as a case writes it.
fn show_byte(out: &mut String, byte: u8) -> Result<(), AllocError> {
    match byte {
        b'\n' => out.push_str("\\n"),
        b'\r' => out.push_str("\\r"),
        b'\t' => out.push_str("\\t"),
        b' ' => out.push_str("\\s"),
        b'\\' | b'{' | b'}' => write!(out, "\\x{byte:02x}"),
        33..=126 => out.push(char::from(byte)),
        _ => write!(out, "\\x{byte:02x}"),
    }
}
