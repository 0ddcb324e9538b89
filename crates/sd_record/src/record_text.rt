use crate::Record;
use sd_outside::{Sink, WriteFault};

/// How a record is written, as one text.
pub trait RecordText {
    ghost use Rattle.std.specs.Prelude.{◌≡◌, ℕ, List, OnOk, OnErr};
    ghost use Rattle.sd_model_outside.specs.Outside.{HasFailedBehind, given};
    ghost use Rattle.sd_model_record.specs.Record.{Record as ModelRecord};
    ghost use Rattle.sd_record.specs.Record.{record_view, room_of, SameScratch};

    /// The text of a record.
    ghost text_of: { Self → ModelRecord → List ℕ };

    /// Writes the text of a record.
    ///
    /// # Errors
    ///
    /// `WriteFault` where the sink failed. Then a prefix of the text was appended.
    fn write<K: Sink>(&self, rec: &mut Record<'_>, sink: &mut K) -> Result<(), WriteFault>
        ensures ok { OnOk result (K.seen sink.new ≡ given (text_of self.now (record_view rec.old)) (K.seen sink.old)) }
        ensures failed { OnErr result (HasFailedBehind (text_of self.now (record_view rec.old)) (K.seen sink.old) (K.seen sink.new)) }
        ensures record { record_view rec.new ≡ record_view rec.old }
        ensures room { room_of rec.new ≡ room_of rec.old }
        ensures same_scratch { SameScratch rec.new rec.old };
}
