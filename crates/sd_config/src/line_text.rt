ghost use Rattle.std.specs.Prelude.{◌≡◌, ℕ, List, length, slice_get, OnOk, OnErr};
ghost use Rattle.std.specs.List.{concat};
ghost use Rattle.std.specs.Option.{option_map};
ghost use Rattle.sd_model_outside.specs.Outside.{HasFailedBehind, given};

use crate::config_value::ReplyLine;
use sd_outside::{Failed, Sink, write_all};

/// A text that is made line by line.
pub trait LineText {
    /// Its lines.
    ghost lines: { Self → List (List ℕ) };

    /// How many lines it has.
    fn line_count(&self) -> usize
        ensures { result ≡ length (lines self.now) };

    /// The line at a place, counted from 0, or none behind the last.
    fn line(&self, place: usize) -> Option<ReplyLine>
        ensures { option_map (λ l. l.items) result ≡ slice_get (lines self.now) place };
}

/// Writes the lines of a text, one after another. No memory is taken.
///
/// # Errors
///
/// `Failed` where the sink failed. Then a prefix of the text was written.
pub fn write_lines<T: LineText, K: Sink>(text: &T, sink: &mut K) -> Result<(), Failed>
    ensures ok { OnOk result (K.seen sink.new ≡ given (concat (T.lines text.now)) (K.seen sink.old)) }
    ensures failed { OnErr result (HasFailedBehind (concat (T.lines text.now)) (K.seen sink.old) (K.seen sink.new)) }
{
    for place in 0..text.line_count() {
        if let Some(line) = text.line(place) {
            write_all(sink, line.as_slice())?;
        }
    }
    Ok(())
}
