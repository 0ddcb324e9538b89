ghost use Rattle.std.specs.Prelude.{◌≡◌, ◌<◌, ◌≤◌, ◌++◌, length, slice_get, option_map, Some, codes, if◌then◌else◌, ◌∷◌, []};
ghost use Rattle.sd_model_settings.specs.Entries.{UpperPercent, LowerPercent, CountPs, Count, Histogram};
ghost use Rattle.sd_model_shard.specs.Values.{is_upper};
ghost use Rattle.sd_model_record.specs.Record.{figure, whole_number, part_figures, whole_figures, figures_of, label, bin_name};
ghost use Rattle.sd_plan.specs.Calculated.{class_of};
ghost use Rattle.sd_stats.specs.Timer.{part_of, whole_of};
ghost use Rattle.sd_record.specs.Row.{bin_view, timer_view};
ghost use Rattle.sd_record.specs.Figures.{figure_view};

use crate::figure_parts::{FigureParts, Tail};
use crate::row::{Bin, TimerRow};
use arrayvec::ArrayVec;
use sd_decimal::{Limit, Line, Sum};
use sd_plan::TimerClass;
use sd_stats::{PctStats, Whole};

// how many figures a part has, and all values
const OF_PART: usize = 5;

const OF_WHOLE: usize = 9;

/// The name of a figure: at most 64 bytes.
pub type Label = ArrayVec<u8, 64>;

/// A figure of a timer: a number under a name, and the class that it is of.
#[derive(Debug, Drop)]
pub struct Figure {
    pub class: TimerClass,
    pub name: Label,
    pub value: Sum,
}

/// A whole number, in millionths.
pub fn whole_number(n: u64) -> Sum
    ensures { result.0 ≡ whole_number n }
{
    Sum(i128::from(n) * 1_000_000)
}

/// A figure of this class, name and value.
fn plain(class: TimerClass, name: &'static [u8], value: Sum) -> FigureParts
    requires { length name.now ≤ 17 }
    ensures { result ≡ figure (class_of class) name.now value.0 }
{
    FigureParts::new(class, name, Tail::Nothing, value)
}

/// The figure at a place of a timer without samples.
fn idle_figure(timer: &TimerRow, i: usize) -> FigureParts
    requires { i < 2 }
    ensures { slice_get (figure Count (codes "count") (timer_view timer.now).count ∷ figure CountPs (codes "count_ps") (timer_view timer.now).count_ps ∷ []) i ≡ Some result }
{
    match i {
        0 => plain(TimerClass::Count, b"count", timer.count),
        _ => plain(TimerClass::CountPs, b"count_ps", timer.count_ps),
    }
}

/// The figure of all values at a place.
fn whole_figure(whole: &Whole, i: usize) -> FigureParts
    requires { i < 9 }
    ensures { slice_get (whole_figures (whole_of whole.now)) i ≡ Some result }
{
    match i {
        0 => plain(TimerClass::Std, b"std", whole.std),
        1 => plain(TimerClass::Upper, b"upper", whole.upper),
        2 => plain(TimerClass::Lower, b"lower", whole.lower),
        3 => plain(TimerClass::Count, b"count", whole.count),
        4 => plain(TimerClass::CountPs, b"count_ps", whole.count_ps),
        5 => plain(TimerClass::Sum, b"sum", whole.sum),
        6 => plain(TimerClass::SumSquares, b"sum_squares", whole.sum_squares),
        7 => plain(TimerClass::Mean, b"mean", whole.mean),
        _ => plain(TimerClass::Median, b"median", whole.median),
    }
}

/// A figure of a part, whose name ends with that of its threshold.
fn of_part(part: &PctStats, class: TimerClass, title: &'static [u8], value: Sum) -> FigureParts
    requires { length title.now ≤ 17 }
    ensures { result ≡ figure (class_of class) (title.now ++ label part.now.threshold.0) value.0 }
{
    FigureParts::new(class, title, Tail::Threshold(part.threshold), value)
}

/// The figure of a part at a place.
fn part_figure(part: &PctStats, i: usize) -> FigureParts
    requires { i < 5 }
    ensures { slice_get (part_figures (part_of part.now)) i ≡ Some result }
{
    match i {
        0 => {
            let count = whole_number(part.count);
            of_part(part, TimerClass::CountPercent, b"count_", count)
        }
        1 => of_part(part, TimerClass::MeanPercent, b"mean_", part.mean),
        2 => edge_figure(part),
        3 => of_part(part, TimerClass::SumPercent, b"sum_", part.sum),
        _ => of_part(
            part,
            TimerClass::SumSquaresPercent,
            b"sum_squares_",
            part.sum_squares,
        ),
    }
}

/// The figure of a part's edge.
fn edge_figure(part: &PctStats) -> FigureParts
    ensures { result ≡ figure (if is_upper part.now.threshold.0 then UpperPercent else LowerPercent)
        ((if is_upper part.now.threshold.0 then codes "upper_" else codes "lower_") ++ label part.now.threshold.0)
        part.now.edge.0 }
{
    if part.threshold.0 > 0 {
        of_part(part, TimerClass::UpperPercent, b"upper_", part.edge)
    } else {
        of_part(part, TimerClass::LowerPercent, b"lower_", part.edge)
    }
}

/// The figure of a bin, which has the name of its upper limit.
fn bin_figure(bin: &Bin) -> FigureParts
    ensures { result ≡ figure Histogram (bin_name (bin_view bin.now).below) (whole_number (bin_view bin.now).count) }
{
    let count = whole_number(bin.count);
    match bin.below {
        Limit::Below(limit) => FigureParts::new(
            TimerClass::Histogram,
            b"histogram.bin_",
            Tail::Number(limit),
            count,
        ),
        Limit::Infinite => plain(TimerClass::Histogram, b"histogram.bin_inf", count),
    }
}

impl TimerRow {
    /// How many figures it has: those of its parts, of all values and of its bins, or two without samples.
    pub fn figures(&self) -> usize
        ensures { result ≡ length (figures_of (timer_view self.now)) }
    {
        match self.whole {
            None => 2,
            Some(_) => OF_PART * self.parts.len() + OF_WHOLE + self.bins.len(),
        }
    }

    /// The i-th figure, in the order in which backends get them.
    pub fn figure(&self, i: usize) -> Figure
        requires { i < length (figures_of (timer_view self.now)) }
        ensures figure { slice_get (figures_of (timer_view self.now)) i ≡ Some (figure_view result) }
        ensures short { length result.name.items ≤ 64 }
    {
        named(&self.figure_parts(i))
    }

    /// The i-th figure, in the order in which backends get them. Its name is put together where it is asked for.
    pub fn figure_parts(&self, i: usize) -> FigureParts
        requires { i < length (figures_of (timer_view self.now)) }
        ensures { slice_get (figures_of (timer_view self.now)) i ≡ Some result }
    {
        match &self.whole {
            None => idle_figure(self, i),
            Some(whole) => self.sampled_figure(whole, i),
        }
    }

    /// The i-th figure of a timer with samples.
    fn sampled_figure(&self, whole: &Whole, i: usize) -> FigureParts
        requires some { option_map whole_of self.now.whole ≡ Some (whole_of whole.now) }
        requires place { i < length (figures_of (timer_view self.now)) }
        ensures { slice_get (figures_of (timer_view self.now)) i ≡ Some result }
    {
        let parts = self.parts.as_slice();
        let of_parts = OF_PART * parts.len();
        if i < of_parts {
            return part_figure(&parts[i / OF_PART], i % OF_PART);
        }
        let place = i - of_parts;
        if place < OF_WHOLE {
            return whole_figure(whole, place);
        }
        bin_figure(&self.bins.as_slice()[place - OF_WHOLE])
    }
}

/// A figure with its name.
fn named(parts: &FigureParts) -> Figure
    ensures figure { figure_view result ≡ parts.now }
    ensures short { length result.name.items ≤ 64 }
{
    let mut text = Line::new();
    parts.push_name(&mut text);
    let mut name = Label::new();
    name.try_extend_from_slice(text.as_slice()).unwrap();
    Figure {
        class: parts.class(),
        name,
        value: parts.value(),
    }
}
