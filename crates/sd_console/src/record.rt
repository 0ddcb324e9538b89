ghost use Rattle.std.specs.Prelude.{◌≡◌, OnOk, OnErr};
ghost use Rattle.sd_model_outside.specs.Outside.{HasFailedBehind, given};
ghost use Rattle.sd_model_record.specs.Backends.{console_text};
ghost use Rattle.sd_record.specs.Record.{record_view, room_of, SameScratch};

use crate::line::{count_lines, second_line};
use crate::row::ConsoleRows;
use sd_outside::{Sink, WriteFault};
use sd_record::{Record, write_line, write_lines, write_rows};

/// Writes the console's text of a record: the flush, the lines of each row, of a timer those that are sent, the server's
/// own counts and the number of rows, and the end. No memory is taken.
///
/// # Errors
///
/// `WriteFault` where the sink failed. Then a prefix of the text was appended.
pub fn write_record<K: Sink>(rec: &mut Record<'_>, sink: &mut K) -> Result<(), WriteFault>
    ensures ok { OnOk result (K.seen sink.new ≡ given (console_text (record_view rec.old)) (K.seen sink.old)) }
    ensures failed { OnErr result (HasFailedBehind (console_text (record_view rec.old)) (K.seen sink.old) (K.seen sink.new)) }
    ensures record { record_view rec.new ≡ record_view rec.old }
    ensures room { room_of rec.new ≡ room_of rec.old }
    ensures same_scratch { SameScratch rec.new rec.old }
{
    write_line(&second_line(b"flush", rec.ts()), sink)?;
    let form = ConsoleRows {
        calculated: rec.calculated(),
    };
    write_rows(&form, rec, sink)?;
    write_lines(&count_lines(rec), sink)?;
    write_line(&second_line(b"end", rec.ts()), sink)
}
