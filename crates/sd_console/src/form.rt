use crate::record::write_record;
use sd_outside::{Sink, WriteFault};
use sd_record::{Record, RecordText};

/// The console's text.
#[derive(Clone, Copy)]
pub struct ConsoleText;

impl RecordText for ConsoleText {
    ghost use Rattle.sd_model_record.specs.Backends.{console_text};

    ghost text_of = { λ _. console_text };

    fn write<K: Sink>(&self, rec: &mut Record<'_>, sink: &mut K) -> Result<(), WriteFault> {
        write_record(rec, sink)
    }
}
