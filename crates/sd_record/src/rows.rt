ghost use Rattle.std.specs.Prelude.{◌≡◌, OnOk, OnErr};
ghost use Rattle.std.specs.List.{concat};
ghost use Rattle.sd_model_outside.specs.Outside.{HasFailedBehind, given};
ghost use Rattle.sd_record.specs.Record.{record_view, room_of, SameScratch};
ghost use Rattle.sd_record.specs.Row.{row_view};
ghost use Rattle.sd_record.specs.RowTexts.{rows_text};

use crate::line::write_line;
use crate::{Record, Row};
use sd_decimal::Line;
use sd_outside::{Sink, WriteFault};

/// How a row of a record is written: as lines, one after another.
pub trait RowText {
    ghost use Rattle.std.specs.Prelude.{◌≡◌, ◌<◌, ◌-◌, ℕ, List, length, slice_get, Some};
    ghost use Rattle.sd_model_record.specs.Record.{Row as ModelRow};
    ghost use Rattle.sd_record.specs.Row.{row_view};

    /// The lines of a row.
    ghost lines_of: { Self → ModelRow → List (List ℕ) };

    /// How many lines a row has.
    fn line_count(&self, row: &Row) -> usize
        ensures { result ≡ length (lines_of self.now (row_view row.now)) };

    /// Puts the line of a row at a place, counted from 0, into `line`, in place of what it has.
    fn put_line(&self, row: &Row, place: usize, line: &mut Line)
        requires { place < length (lines_of self.now (row_view row.now)) }
        ensures { slice_get (lines_of self.now (row_view row.now)) place ≡ Some line.new.items };

    /// Puts the line of a row at a place into `line`, which has the line before it, where there is one: what both begin with
    /// may stay there.
    fn put_next(&self, row: &Row, place: usize, line: &mut Line)
        requires place { place < length (lines_of self.now (row_view row.now)) }
        requires before { 0 < place → slice_get (lines_of self.now (row_view row.now)) (place - 1) ≡ Some line.old.items }
        ensures { slice_get (lines_of self.now (row_view row.now)) place ≡ Some line.new.items }
    {
        self.put_line(row, place, line);
    }
}

/// Writes the lines of a row.
///
/// # Errors
///
/// `WriteFault` where the sink failed. Then a prefix of the lines was appended.
pub fn write_row<T: RowText, K: Sink>(form: &T, row: &Row, sink: &mut K) -> Result<(), WriteFault>
    ensures ok { OnOk result (K.seen sink.new ≡ given (concat (T.lines_of form.now (row_view row.now))) (K.seen sink.old)) }
    ensures failed { OnErr result (HasFailedBehind (concat (T.lines_of form.now (row_view row.now))) (K.seen sink.old) (K.seen sink.new)) }
{
    write_row_through(form, row, &mut Line::new(), sink)
}

/// Writes the lines of a row, each of which is put into `line` first.
fn write_row_through<T: RowText, K: Sink>(
    form: &T,
    row: &Row,
    line: &mut Line,
    sink: &mut K,
) -> Result<(), WriteFault>
    ensures ok { OnOk result (K.seen sink.new ≡ given (concat (T.lines_of form.now (row_view row.now))) (K.seen sink.old)) }
    ensures failed { OnErr result (HasFailedBehind (concat (T.lines_of form.now (row_view row.now))) (K.seen sink.old) (K.seen sink.new)) }
{
    for place in 0..form.line_count(row) {
        form.put_next(row, place, line);
        write_line(line, sink)?;
    }
    Ok(())
}

/// Writes the lines of a record's rows.
///
/// # Errors
///
/// `WriteFault` where the sink failed. Then a prefix of the lines was appended.
pub fn write_rows<T: RowText, K: Sink>(
    form: &T,
    rec: &mut Record<'_>,
    sink: &mut K,
) -> Result<(), WriteFault>
    ensures ok { OnOk result (K.seen sink.new
        ≡ given (rows_text (T.lines_of form.now) (record_view rec.old).rows) (K.seen sink.old)) }
    ensures failed { OnErr result (HasFailedBehind (rows_text (T.lines_of form.now) (record_view rec.old).rows)
        (K.seen sink.old) (K.seen sink.new)) }
    ensures record { record_view rec.new ≡ record_view rec.old }
    ensures room { room_of rec.new ≡ room_of rec.old }
    ensures same_scratch { SameScratch rec.new rec.old }
{
    let mut row = Row::new();
    let mut line = Line::new();
    for i in 0..rec.rows() {
        rec.put_row(i, &mut row);
        write_row_through(form, &row, &mut line, sink)?;
    }
    Ok(())
}
