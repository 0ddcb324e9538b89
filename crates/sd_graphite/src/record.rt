ghost use Rattle.std.specs.Prelude.{◌≡◌, OnOk, OnErr};
ghost use Rattle.sd_model_record.specs.Backends.{graphite_text};
ghost use Rattle.sd_model_outside.specs.Outside.{HasFailedBehind, given};
ghost use Rattle.sd_record.specs.Record.{record_view, room_of, SameScratch};

use crate::row::GraphiteRows;
use crate::second::Second;
use crate::tail::write_tail;
use sd_outside::{Sink, WriteFault};
use sd_plan::Names;
use sd_record::{Record, write_rows};

/// Writes Graphite's text of a record under these names: the lines of each row, of a timer those that are sent, the
/// server's own counters, and the number of rows. No memory is taken.
///
/// # Errors
///
/// `WriteFault` where the sink failed. Then a prefix of the text was appended.
pub fn write_record<K: Sink>(
    rec: &mut Record<'_>,
    names: &Names,
    sink: &mut K,
) -> Result<(), WriteFault>
    ensures ok { OnOk result (K.seen sink.new ≡ given (graphite_text names.now (record_view rec.old)) (K.seen sink.old)) }
    ensures failed { OnErr result (HasFailedBehind (graphite_text names.now (record_view rec.old)) (K.seen sink.old) (K.seen sink.new)) }
    ensures record { record_view rec.new ≡ record_view rec.old }
    ensures room { room_of rec.new ≡ room_of rec.old }
    ensures same_scratch { SameScratch rec.new rec.old }
{
    let second = Second::of(rec.ts());
    let form = GraphiteRows {
        names,
        calculated: rec.calculated(),
        second: &second,
    };
    write_rows(&form, rec, sink)?;
    write_tail(rec, names, sink)
}
