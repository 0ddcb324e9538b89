ghost use Rattle.std.specs.Prelude.{◌≡◌, ◌≤◌, ◌∷◌, ◌++◌, length, OnOk, OnErr};
ghost use Rattle.sd_model_text.specs.Numbers.{per_second};
ghost use Rattle.sd_model_outside.specs.Outside.{HasFailedBehind, given};
ghost use Rattle.sd_model_record.specs.Record.{CounterRow, whole_number};
ghost use Rattle.sd_record.specs.Record.{record_view};
ghost use Rattle.sd_record.specs.Row.{row_view};
ghost use Rattle.sd_graphite.specs.Texts.{own_text, rows_line, tail_text};

use crate::line::put_path;
use crate::path::Path;
use crate::row::GraphiteRows;
use crate::second::Second;
use sd_decimal::{Line, per_second};
use sd_key::Key;
use sd_outside::{Sink, WriteFault};
use sd_plan::Names;
use sd_record::{Record, Row, push_text, whole_number, write_line, write_row};

/// The key of one of the server's own counters.
fn own_key(name: &[u8], names: &Names) -> Key
    requires { length name.now ≤ 64 }
    ensures { result ≡ names.now.prefix_stats ++ 46 ∷ name.now }
{
    let mut key = Line::new();
    push_text(names.prefix_stats().as_slice(), &mut key);
    key.push(b'.');
    push_text(name, &mut key);
    Key::of(key.as_slice()).unwrap()
}

/// One of the server's own counters, as a row.
fn own_row(name: &[u8], number: u64, names: &Names, rec: &Record<'_>) -> Row
    requires { length name.now ≤ 64 }
    ensures { row_view result
        ≡ CounterRow (names.now.prefix_stats ++ 46 ∷ name.now) (whole_number number)
        (per_second (whole_number number) (record_view rec.now).interval_ms) }
{
    let count = whole_number(number);
    Row::Counter {
        key: own_key(name, names),
        count,
        rate: per_second(count, rec.interval_ms()),
    }
}

/// Writes the lines of one of the server's own counters.
fn write_own_counter<K: Sink>(
    name: &[u8],
    number: u64,
    names: &Names,
    rec: &Record<'_>,
    second: &Second,
    sink: &mut K,
) -> Result<(), WriteFault>
    requires name { length name.now ≤ 64 }
    requires second { second.now ≡ (record_view rec.now).ts }
    ensures ok { OnOk result (K.seen sink.new ≡ given (own_text names.now (record_view rec.now) name.now number) (K.seen sink.old)) }
    ensures failed { OnErr result (HasFailedBehind (own_text names.now (record_view rec.now) name.now number) (K.seen sink.old) (K.seen sink.new)) }
{
    let form = GraphiteRows {
        names,
        calculated: rec.calculated(),
        second,
    };
    write_row(&form, &own_row(name, number, names, rec), sink)
}

/// Puts the line of the number of rows into `line`.
fn put_rows(rows: u64, names: &Names, second: &Second, line: &mut Line)
    ensures { line.new.items ≡ rows_line names.now rows second.now }
{
    let path = Path {
        legacy: b"",
        prefix: b"",
        key: names.prefix_stats().as_slice(),
        back: b".numStats",
    };
    put_path(names, &path, whole_number(rows), second, line);
}

/// Writes the lines at the end of a record.
pub(crate) fn write_tail<K: Sink>(
    rec: &Record<'_>,
    names: &Names,
    sink: &mut K,
) -> Result<(), WriteFault>
    ensures ok { OnOk result (K.seen sink.new ≡ given (tail_text names.now (record_view rec.now)) (K.seen sink.old)) }
    ensures failed { OnErr result (HasFailedBehind (tail_text names.now (record_view rec.now)) (K.seen sink.old) (K.seen sink.new)) }
{
    let tally = rec.tally();
    let second = Second::of(rec.ts());
    write_own_counter(b"bad_lines_seen", tally.bad, names, rec, &second, sink)?;
    write_own_counter(
        b"packets_received",
        tally.packets,
        names,
        rec,
        &second,
        sink,
    )?;
    write_own_counter(b"metrics_received", tally.lines, names, rec, &second, sink)?;
    write_own_counter(b"samples_dropped", tally.dropped, names, rec, &second, sink)?;
    let mut line = Line::new();
    put_rows(rec.rows() as u64, names, &second, &mut line);
    write_line(&line, sink)
}
