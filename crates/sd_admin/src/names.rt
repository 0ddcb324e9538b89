ghost use Rattle.std.specs.Prelude.{◌≡◌, ◌≤◌, length, slice_get};
ghost use Rattle.sd_model_record.specs.Admin.{words};

use crate::words::word_at;
use sd_key::Pattern;

/// The names of a deletion: the words behind its command, as they stand in the line, which has at most 1,023 bytes.
#[derive(Clone, Copy, Debug, PartialEq, Eq)]
pub struct NameList<'a> {
    text: &'a [u8],
    ghost short: { length text.now ≤ 1023 },
}

impl<'a> NameList<'a> {
    /// The names in a text.
    pub(crate) fn of(text: &'a [u8]) -> NameList<'a>
        requires { length text.now ≤ 1023 }
        ensures { result.text.now ≡ text.now }
    {
        NameList { text }
    }

    /// The i-th name, counted from 0. None past the last.
    pub(crate) fn name(&self, i: usize) -> Option<Pattern>
        ensures { result ≡ slice_get (words self.now.text.now) i }
    {
        let word = word_at(self.text, i)?;
        Pattern::of(word)
    }
}
