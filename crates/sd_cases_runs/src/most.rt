//! How much the reads and writes of a run take.
use sd_case::{Refusal, number};
use std::num::NonZeroUsize;

/// How many bytes a read or a write takes at most, of each object and of both ends of the sessions.
#[derive(Clone, Copy)]
pub(crate) struct Most {
    pub settings: NonZeroUsize,
    pub script: NonZeroUsize,
    pub output: NonZeroUsize,
    pub graphite: NonZeroUsize,
    pub console: NonZeroUsize,
    pub sessions: NonZeroUsize,
}

impl Most {
    /// The same of all.
    pub(crate) fn all(bytes: NonZeroUsize) -> Most {
        Most {
            settings: bytes,
            script: bytes,
            output: bytes,
            graphite: bytes,
            console: bytes,
            sessions: bytes,
        }
    }

    /// Takes `BYTES` for all, or `BYTES/OBJECT` for one.
    ///
    /// # Errors
    ///
    /// `Malformed` where the text is of neither form, and `Condition` where no byte is to be taken.
    pub(crate) fn set(&mut self, text: &str) -> Result<(), Refusal> {
        let Some((bytes, object)) = text.split_once('/') else {
            *self = Most::all(bytes_of_word(text)?);
            return Ok(());
        };
        let bytes = bytes_of_word(bytes)?;
        match object {
            "settings" => self.settings = bytes,
            "script" => self.script = bytes,
            "output" => self.output = bytes,
            "graphite" => self.graphite = bytes,
            "console" => self.console = bytes,
            "sessions" => self.sessions = bytes,
            _ => return Err(Refusal::Malformed),
        }
        Ok(())
    }
}

/// The number of bytes that a word writes, which isn't 0.
pub(crate) fn bytes_of_word(word: &str) -> Result<NonZeroUsize, Refusal> {
    NonZeroUsize::new(number(word)?).ok_or(Refusal::Condition)
}
