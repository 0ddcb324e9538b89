ghost use Rattle.std.specs.Prelude.{◌≡◌, ◌≤◌, length, IfOk};
ghost use Rattle.sd_record.specs.Record.{room_of, SameScratch};

use sd_case::{Answer, Refusal, number};
use sd_config::Settings;
use sd_decimal::Limit;
use sd_desk::Tally;
use sd_epoch::Table;
use sd_memory::MemSink;
use sd_outside::{Sink, WriteFault};
use sd_plan::Names;
use sd_record::{Record, RecordScratch, Row, TimerRow};
use std::slice;

// the largest count of a tally
const MOST: u64 = 1 << 63;

/// What a flush is told besides the table.
#[derive(Drop)]
pub(crate) struct Flush {
    pub settings: Settings,
    pub names: Names,
    pub ts: u64,
    pub tally: Tally,
}

/// A count of a tally.
fn count_of(word: &str) -> Result<u64, Refusal>
    ensures { IfOk result (λ count. count ≤ MOST) }
{
    let count = number::<u64>(word)?;
    if count > MOST {
        return Err(Refusal::Condition);
    }
    Ok(count)
}

/// The tally that a word writes as `PACKETS/LINES/BAD/DROPPED`.
pub(crate) fn tally_from(word: &str) -> Result<Tally, Refusal> {
    let (packets, rest) = word.split_once('/').ok_or(Refusal::Malformed)?;
    let (lines, rest) = rest.split_once('/').ok_or(Refusal::Malformed)?;
    let (bad, dropped) = rest.split_once('/').ok_or(Refusal::Malformed)?;
    Ok(Tally {
        packets: count_of(packets)?,
        lines: count_of(lines)?,
        bad: count_of(bad)?,
        dropped: count_of(dropped)?,
    })
}

/// Appends the record of a table.
pub(crate) fn show_record(
    table: &Table,
    scratch: &mut RecordScratch,
    flush: &Flush,
    out: &mut Answer,
)
    requires rows { length table.now.listed ≤ scratch.old.room.rows }
    requires entries { table.now.entries ≤ scratch.old.room.entries }
    ensures { scratch.new.room ≡ scratch.old.room }
{
    let mut record = Record::over(
        slice::from_ref(table),
        flush.settings.plan(),
        scratch,
        flush.tally,
        flush.ts,
    );
    show_head(&record, out);
    for i in 0..record.rows() {
        show_row(&record.row(i), out);
    }
}

/// Appends what a record says besides its rows.
fn show_head(record: &Record<'_>, out: &mut Answer) {
    out.count("rows ", record.rows() as u64);
    out.count(", at ", record.ts());
    out.count(", over ", u64::from(record.interval_ms()));
    let tally = record.tally();
    out.count(", tally ", tally.packets);
    out.count("/", tally.lines);
    out.count("/", tally.bad);
    out.count("/", tally.dropped);
}

/// Appends the line of a row of a record, and of each part and bin of a timer.
fn show_row(row: &Row, out: &mut Answer) {
    match row {
        Row::Counter { key, count, rate } => {
            out.text("\n    counter ");
            out.bytes(key.as_slice());
            show_sum(": count ", count.0, out);
            show_sum(", rate ", rate.0, out);
        }
        Row::Timer { key, timer } => {
            out.text("\n    timer ");
            out.bytes(key.as_slice());
            show_timer(timer, out);
        }
        Row::Gauge { key, value } => {
            out.text("\n    gauge ");
            out.bytes(key.as_slice());
            show_sum(": value ", i128::from(value.0), out);
        }
        Row::Set { key, count } => {
            out.text("\n    set ");
            out.bytes(key.as_slice());
            out.count(": members ", *count);
        }
    }
}

/// Appends a number in millionths.
fn show_sum(title: &str, sum: i128, out: &mut Answer) {
    out.text(title);
    out.number(sum);
}

/// Appends what a timer comes to.
fn show_timer(timer: &TimerRow, out: &mut Answer) {
    show_sum(": count ", timer.count.0, out);
    show_sum(", per second ", timer.count_ps.0, out);
    if let Some(whole) = &timer.whole {
        show_sum(", lower ", whole.lower.0, out);
        show_sum(", upper ", whole.upper.0, out);
        show_sum(", sum ", whole.sum.0, out);
        show_sum(", squares ", whole.sum_squares.0, out);
        show_sum(", mean ", whole.mean.0, out);
        show_sum(", median ", whole.median.0, out);
        show_sum(", std ", whole.std.0, out);
    }
    for part in &timer.parts {
        show_sum("\n        part ", i128::from(part.threshold.0), out);
        out.count(": values ", part.count);
        show_sum(", edge ", part.edge.0, out);
        show_sum(", sum ", part.sum.0, out);
        show_sum(", squares ", part.sum_squares.0, out);
        show_sum(", mean ", part.mean.0, out);
    }
    for bin in &timer.bins {
        match bin.below {
            Limit::Below(limit) => show_sum("\n        below ", i128::from(limit.0), out),
            Limit::Infinite => out.text("\n        below inf"),
        }
        out.count(": values ", bin.count);
    }
}

/// Whose text of a record is written.
#[derive(Clone, Copy)]
pub(crate) enum Text {
    Graphite,
    Console,
}

/// Writes a text of a record.
fn write_text<K: Sink>(
    text: Text,
    record: &mut Record<'_>,
    names: &Names,
    sink: &mut K,
) -> Result<(), WriteFault>
    ensures room { room_of record.new ≡ room_of record.old }
    ensures same_scratch { SameScratch record.new record.old }
{
    match text {
        Text::Graphite => sd_graphite::write_record(record, names, sink),
        Text::Console => sd_console::write_record(record, sink),
    }
}

/// Writes a text of a record, and appends the answer, the sink's faults, and the lines that it has.
pub(crate) fn show_text(
    text: Text,
    table: &Table,
    scratch: &mut RecordScratch,
    flush: &Flush,
    sink: &mut MemSink,
    out: &mut Answer,
)
    requires rows { length table.now.listed ≤ scratch.old.room.rows }
    requires entries { table.now.entries ≤ scratch.old.room.entries }
    ensures { scratch.new.room ≡ scratch.old.room }
{
    let mut record = Record::over(
        slice::from_ref(table),
        flush.settings.plan(),
        scratch,
        flush.tally,
        flush.ts,
    );
    match write_text(text, &mut record, &flush.names, sink) {
        Ok(()) => out.text("ok"),
        Err(WriteFault) => out.text("fault"),
    }
    out.count(", faults ", sink.faults());
    out.lines(sink.bytes());
}
