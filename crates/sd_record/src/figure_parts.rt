ghost use Rattle.std.specs.Prelude.{◌≡◌, ◌+◌, ◌≤◌, ◌++◌, ◌==◌, [], length, pos, unsigned_abs, codes, if◌then◌else◌};
ghost use Rattle.arrayvec.specs.ArrayVec.{array_vec_len};
ghost use Rattle.sd_model_text.specs.Numbers.{number_text};
ghost use Rattle.sd_model_shard.specs.Values.{is_upper};
ghost use Rattle.sd_model_record.specs.Record.{figure, underlined, label};
ghost use Rattle.sd_plan.specs.Calculated.{class_of};
ghost use Rattle.sd_record.specs.FigureInside.{tail_text};

use sd_decimal::{Line, Micro, Sum, write};
use sd_plan::TimerClass;
use std::marker::Model;

/// What stands behind the title in the name of a figure.
#[derive(Clone, Copy, Debug)]
pub(crate) enum Tail {
    Nothing,
    /// The name of a threshold.
    Threshold(Micro),
    /// A number, its point as `_`.
    Number(Micro),
}

/// A figure of a timer whose name isn't put together: its class, the title and the tail of its name, and its value.
#[derive(Debug, Drop)]
pub struct FigureParts {
    class: TimerClass,
    title: &'static [u8],
    tail: Tail,
    value: Sum,
}

impl Model for FigureParts {
    ghost use Rattle.sd_model_record.specs.Record.{Figure as Value'};

    ghost Value = { Value' };

    ghost use Rattle.sd_record.specs.FigureInside.{parts_view, IsParts};

    ghost view = { parts_view };

    ghost invariant = { IsParts };
}

impl FigureParts {
    /// A figure of a class with this value, whose name is a title and what stands behind it.
    pub(crate) fn new(
        class: TimerClass,
        title: &'static [u8],
        tail: Tail,
        value: Sum,
    ) -> FigureParts
        requires { length title.now ≤ 17 }
        ensures { result ≡ figure (class_of class) (title.now ++ tail_text tail) value.0 }
    {
        FigureParts {
            class,
            title,
            tail,
            value,
        }
    }

    /// The class that it is of.
    pub fn class(&self) -> TimerClass
        ensures { class_of result ≡ self.now.class }
    {
        self.class
    }

    /// Its value.
    pub fn value(&self) -> Sum
        ensures { result.0 ≡ self.now.value }
    {
        self.value
    }

    /// Appends its name.
    pub fn push_name(&self, line: &mut Line)
        requires { array_vec_len line.old ≤ 900 }
        ensures text { line.new.items ≡ line.old.items ++ self.now.name }
        ensures len { array_vec_len line.new ≤ array_vec_len line.old + 64 }
    {
        push_text(self.title, line);
        match self.tail {
            Tail::Nothing => {}
            Tail::Threshold(threshold) => push_threshold(threshold, line),
            Tail::Number(number) => push_number(number, line),
        }
    }
}

/// Appends bytes for which there is room.
fn push_text(text: &[u8], line: &mut Line)
    requires { array_vec_len line.old + length text.now ≤ 1024 }
    ensures text { line.new.items ≡ line.old.items ++ text.now }
    ensures len { array_vec_len line.new ≡ array_vec_len line.old + length text.now }
{
    line.try_extend_from_slice(text).unwrap();
}

/// A byte, or `_` for a point.
fn underlined_byte(byte: u8) -> u8
    ensures { result ≡ (if byte == 46 then 95 else byte) }
{
    if byte == b'.' { b'_' } else { byte }
}

/// Puts `_` in the place of each point.
fn underline(text: &mut [u8])
    ensures { text.new ≡ underlined text.old }
{
    for byte in text {
        *byte = underlined_byte(*byte);
    }
}

/// Appends a number, its point as `_`.
fn push_underlined(number: Sum, line: &mut Line)
    requires { array_vec_len line.old ≤ 940 }
    ensures text { line.new.items ≡ line.old.items ++ underlined (number_text number.0) }
    ensures len { array_vec_len line.new ≤ array_vec_len line.old + 41 }
{
    let start = line.len();
    write(number, line);
    underline(&mut line.as_mut_slice()[start..]);
}

/// Appends a number of one word, its point as `_`.
fn push_number(number: Micro, line: &mut Line)
    requires { array_vec_len line.old ≤ 940 }
    ensures text { line.new.items ≡ line.old.items ++ underlined (number_text number.0) }
    ensures len { array_vec_len line.new ≤ array_vec_len line.old + 41 }
{
    push_underlined(Sum(i128::from(number.0)), line);
}

/// A threshold without its sign.
fn magnitude(threshold: Micro) -> Sum
    ensures { result.0 ≡ pos (unsigned_abs threshold.0) }
{
    Sum(i128::from(threshold.0.unsigned_abs()))
}

/// What the name of a threshold begins with.
fn threshold_title(threshold: Micro) -> &'static [u8]
    ensures title { result.now ≡ (if is_upper threshold.0 then [] else codes "top") }
    ensures short { length result.now ≤ 3 }
{
    if threshold.0 > 0 { b"" } else { b"top" }
}

/// Appends the name of a threshold.
fn push_threshold(threshold: Micro, line: &mut Line)
    requires { array_vec_len line.old ≤ 930 }
    ensures text { line.new.items ≡ line.old.items ++ label threshold.0 }
    ensures len { array_vec_len line.new ≤ array_vec_len line.old + 44 }
{
    push_text(threshold_title(threshold), line);
    push_underlined(magnitude(threshold), line);
}
