ghost use Rattle.std.specs.Prelude.{◌≡◌, ◌≤◌, ◌∷◌, ◌++◌, [], length, codes, decimal};
ghost use Rattle.sd_model_text.specs.Numbers.{number_text};
ghost use Rattle.sd_console.specs.Texts.{counter_line, sent_line, gauge_line, set_line};

use sd_decimal::{Line, Micro, Sum};
use sd_key::Key;
use sd_plan::Calculated;
use sd_record::{FigureParts, Row, RowText, push_number, push_text, push_whole};

/// How the console gets the rows of a record, where these classes of timers' lines are chosen.
#[derive(Clone, Copy)]
pub(crate) struct ConsoleRows<'a> {
    pub calculated: &'a Calculated,
}

impl<'a> RowText for ConsoleRows<'a> {
    ghost use Rattle.sd_console.specs.Texts.{row_texts};

    ghost lines_of = { λ s. row_texts s.calculated.now };

    fn line_count(&self, row: &Row) -> usize {
        match row {
            Row::Timer { key: _, timer } => timer.figures(),
            Row::Counter {
                key: _,
                count: _,
                rate: _,
            } => 1,
            Row::Gauge { key: _, value: _ } => 1,
            Row::Set { key: _, count: _ } => 1,
        }
    }

    fn put_line(&self, row: &Row, place: usize, line: &mut Line) {
        match row {
            Row::Counter { key, count, rate } => put_counter(key, *count, *rate, line),
            Row::Timer { key, timer } => {
                let figure = timer.figure_parts(place);
                put_sent(key, &figure, self.calculated, line);
            }
            Row::Gauge { key, value } => put_gauge(key, *value, line),
            Row::Set { key, count } => put_set(key, *count, line),
        }
    }
}

/// Begins a line with these bytes, in place of what it has.
fn begin(text: &[u8], line: &mut Line)
    requires { length text.now ≤ 64 }
    ensures { line.new.items ≡ text.now }
{
    line.clear();
    push_text(text, line);
}

/// Puts the line of a counter into `line`.
fn put_counter(key: &Key, count: Sum, rate: Sum, line: &mut Line)
    ensures { line.new.items ≡ counter_line key.now count.0 rate.0 }
{
    begin(b"counter ", line);
    push_text(key.as_slice(), line);
    push_number(count, line);
    push_number(rate, line);
    line.push(b'\n');
}

/// Puts the line of a timer's figure into `line`.
fn put_figure(key: &Key, figure: &FigureParts, line: &mut Line)
    ensures { line.new.items ≡ (codes "timer " ++ key.now ++ 32 ∷ figure.now.name ++ 32 ∷ number_text figure.now.value ++ 10 ∷ []) }
{
    begin(b"timer ", line);
    push_text(key.as_slice(), line);
    line.push(b' ');
    figure.push_name(line);
    push_number(figure.value(), line);
    line.push(b'\n');
}

/// Puts the line of a timer's figure into `line`, or nothing where its class isn't sent.
fn put_sent(key: &Key, figure: &FigureParts, calculated: &Calculated, line: &mut Line)
    ensures { line.new.items ≡ sent_line calculated.now key.now figure.now }
{
    if calculated.sends(figure.class()) {
        put_figure(key, figure, line);
    } else {
        line.clear();
    }
}

/// Puts the line of a gauge into `line`.
fn put_gauge(key: &Key, value: Micro, line: &mut Line)
    ensures { line.new.items ≡ gauge_line key.now value.0 }
{
    begin(b"gauge ", line);
    push_text(key.as_slice(), line);
    push_number(Sum(i128::from(value.0)), line);
    line.push(b'\n');
}

/// Puts the line of a set into `line`.
fn put_set(key: &Key, count: u64, line: &mut Line)
    ensures { line.new.items ≡ set_line key.now count }
{
    begin(b"set ", line);
    push_text(key.as_slice(), line);
    push_whole(count, line);
    line.push(b'\n');
}
