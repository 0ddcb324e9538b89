ghost use Rattle.std.specs.Prelude.{◌≡◌, ◌≢◌, ◌<◌, ◌≤◌, [], length, IsTrue, if◌then◌else◌, codes, ◌∷◌, ◌++◌};
ghost use Rattle.arrayvec.specs.ArrayVec.{array_vec_len};
ghost use Rattle.sd_graphite.specs.Texts.{path_text, timer_prefix, BeginsWith, rate_line, count_line, sent_line, gauge_line, set_line};
ghost use Rattle.sd_model_text.specs.Numbers.{number_text};
ghost use Rattle.sd_model_record.specs.Backends.{graphite_line, path_prefix};

use crate::line::{begin, end, keep, put_path};
use crate::path::Path;
use crate::second::Second;
use sd_decimal::{Line, Micro, Sum};
use sd_key::Key;
use sd_plan::{Calculated, Names};
use sd_record::{FigureParts, Row, RowText, whole_number};

/// How Graphite gets the rows of a record under these names, at this Unix second, where these classes of timers' lines are
/// chosen.
#[derive(Clone, Copy)]
pub(crate) struct GraphiteRows<'a> {
    pub names: &'a Names,
    pub calculated: &'a Calculated,
    pub second: &'a Second,
}

impl<'a> RowText for GraphiteRows<'a> {
    ghost use Rattle.sd_graphite.specs.Texts.{row_texts};

    ghost lines_of = { λ s. row_texts s.names.now s.calculated.now s.second.now };

    fn line_count(&self, row: &Row) -> usize {
        match row {
            Row::Counter {
                key: _,
                count: _,
                rate: _,
            } => 2,
            Row::Timer { key: _, timer } => timer.figures(),
            Row::Gauge { key: _, value: _ } => 1,
            Row::Set { key: _, count: _ } => 1,
        }
    }

    fn put_line(&self, row: &Row, place: usize, line: &mut Line) {
        match row {
            Row::Counter { key, count, rate } => match place {
                0 => put_rate(key, *rate, self.names, self.second, line),
                _ => put_count(key, *count, self.names, self.second, line),
            },
            Row::Timer { key, timer } => {
                let figure = timer.figure_parts(place);
                put_sent(key, &figure, self, false, line);
            }
            Row::Gauge { key, value } => put_gauge(key, *value, self.names, self.second, line),
            Row::Set { key, count } => put_set(key, *count, self.names, self.second, line),
        }
    }

    fn put_next(&self, row: &Row, place: usize, line: &mut Line) {
        if let Row::Timer { key, timer } = row {
            let figure = timer.figure_parts(place);
            put_sent(key, &figure, self, is_begun(place, line), line);
        } else {
            self.put_line(row, place, line);
        }
    }
}

/// What stands behind a counter's key, which has nothing behind it in the legacy namespace.
fn counter_back<'a>(names: &Names, back: &'a [u8]) -> &'a [u8]
    requires { length back.now ≤ 6 }
    ensures text { result.now ≡ (if names.now.namespace.legacy then [] else back.now) }
    ensures short { length result.now ≤ 6 }
{
    if names.namespace().legacy { b"" } else { back }
}

/// Puts the line of a counter's count per second into `line`.
fn put_rate(key: &Key, rate: Sum, names: &Names, second: &Second, line: &mut Line)
    ensures { line.new.items ≡ rate_line names.now second.now key.now rate.0 }
{
    let path = Path {
        legacy: b"stats.",
        prefix: names.namespace().prefix_counter.as_slice(),
        key: key.as_slice(),
        back: counter_back(names, b".rate"),
    };
    put_path(names, &path, rate, second, line);
}

/// Puts the line of a counter's count into `line`.
fn put_count(key: &Key, count: Sum, names: &Names, second: &Second, line: &mut Line)
    ensures { line.new.items ≡ count_line names.now second.now key.now count.0 }
{
    let path = Path {
        legacy: b"stats_counts.",
        prefix: names.namespace().prefix_counter.as_slice(),
        key: key.as_slice(),
        back: counter_back(names, b".count"),
    };
    put_path(names, &path, count, second, line);
}

/// Whether the line before that of a place begins what is put there: it does where there is one that was sent.
fn is_begun(place: usize, line: &Line) -> bool
    ensures { IsTrue result → (0 < place) × (line.now.items ≢ []) }
{
    place > 0 && !line.is_empty()
}

/// What the path of each figure of a timer begins with.
fn timer_path<'a>(key: &'a Key, names: &'a Names) -> Path<'a>
    ensures { path_text names.now result ≡ timer_prefix names.now key.now }
{
    Path {
        legacy: b"stats.timers.",
        prefix: names.namespace().prefix_timer.as_slice(),
        key: key.as_slice(),
        back: b".",
    }
}

/// Puts what the path of each figure of a timer begins with into `line`, in place of what it has: where it begins with that
/// already, the rest goes.
fn begin_figure(key: &Key, names: &Names, is_begun: bool, line: &mut Line)
    requires { IsTrue is_begun → BeginsWith (timer_prefix names.now key.now) line.old.items }
    ensures text { line.new.items ≡ timer_prefix names.now key.now }
    ensures len { array_vec_len line.new ≤ 450 }
{
    let path = timer_path(key, names);
    if is_begun {
        keep(names, &path, line);
    } else {
        begin(names, &path, line);
    }
}

/// Puts the line of a timer's figure into `line`, which may begin with what the path of each figure does.
fn put_figure(
    key: &Key,
    figure: &FigureParts,
    names: &Names,
    second: &Second,
    is_begun: bool,
    line: &mut Line,
)
    requires { IsTrue is_begun → BeginsWith (timer_prefix names.now key.now) line.old.items }
    ensures { line.new.items ≡ graphite_line names.now (path_prefix names.now (codes "stats.timers.") names.now.namespace.prefix_timer ++ key.now ++ 46 ∷ figure.now.name) (number_text figure.now.value) second.now }
{
    begin_figure(key, names, is_begun, line);
    figure.push_name(line);
    end(names, figure.value(), second, line);
}

/// Puts the line of a timer's figure into `line`, or nothing where its class isn't sent. The line may begin with what the
/// path of each figure does.
fn put_sent(
    key: &Key,
    figure: &FigureParts,
    form: &GraphiteRows<'_>,
    is_begun: bool,
    line: &mut Line,
)
    requires { IsTrue is_begun → BeginsWith (timer_prefix form.now.names.now key.now) line.old.items }
    ensures { line.new.items ≡ sent_line form.now.names.now form.now.calculated.now form.now.second.now key.now figure.now }
{
    if form.calculated.sends(figure.class()) {
        put_figure(key, figure, form.names, form.second, is_begun, line);
    } else {
        line.clear();
    }
}

/// A value as a sum of one.
fn as_sum(value: Micro) -> Sum
    ensures { result.0 ≡ value.0 }
{
    Sum(i128::from(value.0))
}

/// Puts the line of a gauge into `line`.
fn put_gauge(key: &Key, value: Micro, names: &Names, second: &Second, line: &mut Line)
    ensures { line.new.items ≡ gauge_line names.now second.now key.now value.0 }
{
    let path = Path {
        legacy: b"stats.gauges.",
        prefix: names.namespace().prefix_gauge.as_slice(),
        key: key.as_slice(),
        back: b"",
    };
    put_path(names, &path, as_sum(value), second, line);
}

/// Puts the line of a set into `line`.
fn put_set(key: &Key, count: u64, names: &Names, second: &Second, line: &mut Line)
    ensures { line.new.items ≡ set_line names.now second.now key.now count }
{
    let path = Path {
        legacy: b"stats.sets.",
        prefix: names.namespace().prefix_set.as_slice(),
        key: key.as_slice(),
        back: b".count",
    };
    put_path(names, &path, whole_number(count), second, line);
}
