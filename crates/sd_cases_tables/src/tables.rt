ghost use Rattle.std.specs.Prelude.{◌≡◌, ◌≤◌, ◌<◌, length, IfOk};
ghost use Rattle.sd_epoch.specs.Limits.{limits_of, AreLimits};
ghost use Rattle.sd_record.specs.Room.{room_for};

use crate::records::{Flush, Text, show_record, show_text, tally_from};
use crate::samples::sample_of;
use crate::shards::{limits_from, show_name, show_sorted, show_table};
use sd_case::{Answer, Refusal, bytes_of, key_of, kind_of, number};
use sd_config::{NamesOf, Settings};
use sd_decimal::Micro;
use sd_epoch::{Limits, Scratch, Table};
use sd_key::Kind;
use sd_memory::MemSink;
use sd_plan::Names;
use sd_record::RecordScratch;
use std::alloc::Global;

/// What of a row's samples is shown.
#[derive(Clone, Copy)]
enum Part {
    Values,
    Members,
    Amount,
}

/// A table, the room for what its rows have, and that of its record, for the same limits.
#[derive(Drop)]
struct Bench {
    limits: Limits,
    gathered: Scratch,
    table: Table,
    scratch: RecordScratch,
    ghost opened: { table.limits ≡ limits_of limits },
    ghost sample_room: { gathered.room ≡ limits.entries },
    ghost room: { scratch.room ≡ room_for (limits_of limits) 1 },
}

impl Bench {
    /// An empty table with these limits.
    fn open(alloc: Global, limits: Limits) -> Result<Bench, Refusal>
        requires { AreLimits (limits_of limits) }
    {
        Ok(Bench {
            limits,
            gathered: Scratch::open(alloc, limits)?,
            table: Table::open(alloc, limits, 0)?,
            scratch: RecordScratch::open(alloc, limits, 1)?,
        })
    }

    /// Executes steps, and appends what each answers.
    fn steps(
        &mut self,
        alloc: Global,
        flush: &Flush,
        steps: &[&str],
        out: &mut Answer,
    ) -> Result<(), Refusal> {
        for step in steps {
            out.step(step);
            self.step(alloc, flush, step, out)?;
        }
        Ok(())
    }

    /// Executes a step.
    fn step(
        &mut self,
        alloc: Global,
        flush: &Flush,
        step: &str,
        out: &mut Answer,
    ) -> Result<(), Refusal> {
        match step.split_once('=') {
            Some(("keep", name)) => self.keep(alloc, name, out),
            Some(("has", name)) => self.has(alloc, name, out),
            Some(("forget", what)) => self.forget(alloc, what, out),
            Some(("text", sink)) => self.text(alloc, flush, Text::Graphite, sink, out),
            Some(("console", sink)) => self.text(alloc, flush, Text::Console, sink, out),
            Some(_) => Err(Refusal::Malformed),
            None => self.plain_step(alloc, flush, step, out),
        }
    }

    /// Executes a step without an argument, or else puts in the sample that it writes.
    fn plain_step(
        &mut self,
        alloc: Global,
        flush: &Flush,
        step: &str,
        out: &mut Answer,
    ) -> Result<(), Refusal> {
        match step {
            "record" => {
                self.record(flush, out);
                Ok(())
            }
            "rows" => show_table(alloc, &self.table, out),
            "values" => show_parts(alloc, &self.table, Part::Values, &mut self.gathered, out),
            "members" => show_parts(alloc, &self.table, Part::Members, &mut self.gathered, out),
            "amounts" => show_parts(alloc, &self.table, Part::Amount, &mut self.gathered, out),
            "limits" => {
                self.show_limits(out);
                Ok(())
            }
            "clear" => {
                self.table.clear();
                out.text("ok");
                Ok(())
            }
            _ => self.push(alloc, step, out),
        }
    }

    /// Appends the limits.
    fn show_limits(&mut self, out: &mut Answer) {
        let limits = self.table.limits();
        out.count("rows ", u64::from(limits.rows));
        out.count(", entries ", u64::from(limits.entries));
        if limits.sums_on_arrival {
            out.text(", sums on arrival");
        }
    }

    /// Puts a sample into the table, where there is room for a new row and an entry.
    fn push(&mut self, alloc: Global, word: &str, out: &mut Answer) -> Result<(), Refusal> {
        let sample = sample_of(alloc, word)?;
        let limits = self.table.limits();
        if self.table.rows() >= limits.rows
            || self.table.entries() >= limits.entries
            || self.table.held() >= u64::from(limits.entries)
        {
            return Err(Refusal::Condition);
        }
        self.table.sample(&sample);
        out.text("ok");
        Ok(())
    }

    /// Makes the row of a counter, which has to be absent.
    fn keep(&mut self, alloc: Global, name: &str, out: &mut Answer) -> Result<(), Refusal> {
        let key = key_of(alloc, name)?;
        let limits = self.table.limits();
        if self.table.has_row(Kind::Counter, &key) || self.table.rows() >= limits.rows {
            return Err(Refusal::Condition);
        }
        self.table.keep_row(Kind::Counter, &key, Micro(7), 3);
        out.text("ok");
        Ok(())
    }

    /// Appends whether the table has the row of a counter.
    fn has(&mut self, alloc: Global, name: &str, out: &mut Answer) -> Result<(), Refusal> {
        let key = key_of(alloc, name)?;
        out.yes_or_no(self.table.has_row(Kind::Counter, &key));
        Ok(())
    }

    /// Takes the row that is written as `KIND/NAME` out, and appends how many samples went.
    fn forget(&mut self, alloc: Global, what: &str, out: &mut Answer) -> Result<(), Refusal> {
        let (kind, name) = what.split_once('/').ok_or(Refusal::Malformed)?;
        let key = key_of(alloc, name)?;
        out.count("", self.table.forget_row(kind_of(kind)?, &key));
        Ok(())
    }

    /// Appends the record of the table.
    fn record(&mut self, flush: &Flush, out: &mut Answer) {
        let _rows = self.table.rows();
        let _entries = self.table.entries();
        show_record(&self.table, &mut self.scratch, flush, out);
    }

    /// Appends a text of the record, as a sink has it that is written as `ROOM` or `ROOM!CALL`.
    fn text(
        &mut self,
        alloc: Global,
        flush: &Flush,
        text: Text,
        sink: &str,
        out: &mut Answer,
    ) -> Result<(), Refusal> {
        let _rows = self.table.rows();
        let _entries = self.table.entries();
        let mut sink = sink_from(alloc, sink)?;
        show_text(text, &self.table, &mut self.scratch, flush, &mut sink, out);
        Ok(())
    }
}

/// Appends the line of each row of a table, with a part of its samples.
fn show_parts(
    alloc: Global,
    table: &Table,
    part: Part,
    gathered: &mut Scratch,
    out: &mut Answer,
) -> Result<(), Refusal>
    requires { table.now.limits.entries ≤ gathered.old.room }
    ensures { gathered.new.room ≡ gathered.old.room }
{
    let _entries = table.entries();
    let mut lines = Vec::new(alloc);
    for i in 0..table.rows() {
        let row = table.get(i);
        let mut line = Answer::new(alloc);
        show_name(row.kind, row.key, &mut line);
        show_part(table, i, part, gathered, &mut line);
        lines.push(line.finish()?)?;
    }
    show_sorted(lines, out)
}

/// Appends the values or the members of a table's row, in the order in which they came, or what they come to.
fn show_part(table: &Table, i: u32, part: Part, gathered: &mut Scratch, out: &mut Answer)
    requires place { i < length table.now.listed }
    requires room { table.now.entries ≤ gathered.old.room }
    ensures { gathered.new.room ≡ gathered.old.room }
{
    match part {
        Part::Values => {
            out.text(": values");
            table.values_of(i, gathered);
            for value in gathered.values() {
                out.text(" ");
                out.number(i128::from(value.0));
            }
        }
        Part::Members => {
            out.text(": members");
            table.members_of(i, gathered);
            for member in gathered.members() {
                out.text(" ");
                out.bytes(member.as_slice());
            }
        }
        Part::Amount => {
            out.text(": amount ");
            out.number(table.amount_of(i).0);
        }
    }
}

/// The sink that a word writes as `ROOM` or `ROOM!CALL`, the call that fails.
fn sink_from(alloc: Global, word: &str) -> Result<MemSink, Refusal> {
    let Some((room, call)) = word.split_once('!') else {
        return Ok(MemSink::open(alloc, number(word)?)?);
    };
    let mut sink = MemSink::open(alloc, number(room)?)?;
    sink.fail_call.push(number(call)?)?;
    Ok(sink)
}

/// What a flush is told by a settings file, a Unix second and a tally.
fn flush_from(alloc: Global, settings: &str, ts: &str, tally: &str) -> Result<Flush, Refusal> {
    let ts = number(ts)?;
    let tally = tally_from(tally)?;
    let Ok(settings) = Settings::read(alloc, &bytes_of(alloc, settings)?) else {
        return Err(Refusal::Condition);
    };
    Ok(Flush {
        names: Names::of(&settings),
        settings,
        ts,
        tally,
    })
}

/// `table ROWS/ENTRIES SETTINGS TS PACKETS/LINES/BAD/DROPPED STEPS`: what each step on an empty table answers, and
/// on the records of it, which go by a settings file.
pub(crate) fn steps_on_table(
    alloc: Global,
    limits: &str,
    flush: &[&str; 3],
    steps: &[&str],
    out: &mut Answer,
) -> Result<(), Refusal> {
    let limits = limits_from(limits)?;
    let [settings, ts, tally] = *flush;
    let flush = flush_from(alloc, settings, ts, tally)?;
    steps_by_flush(alloc, limits, &flush, steps, out)
}

/// What each step on an empty table answers, and on the records of it, which go by what a flush is told.
fn steps_by_flush(
    alloc: Global,
    limits: Limits,
    flush: &Flush,
    steps: &[&str],
    out: &mut Answer,
) -> Result<(), Refusal>
    requires { AreLimits (limits_of limits) }
{
    let mut bench = Bench::open(alloc, limits)?;
    bench.steps(alloc, flush, steps, out)
}
