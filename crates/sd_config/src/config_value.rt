ghost use Rattle.std.specs.Prelude.{◌≡◌, ◌+◌, ◌≤◌, ◌++◌, ℕ, List, length, map};
ghost use Rattle.arrayvec.specs.ArrayVec.{array_vec_len};
ghost use Rattle.sd_model_settings.specs.ConfigText.{with_commas};

use arrayvec::ArrayVec;
use sd_decimal::{Limit, Line, Micro, Sum, write};
use sd_outside::Name;

/// A line of a reply to an admin: at most 4,096 bytes.
pub type ReplyLine = ArrayVec<u8, 4096>;

/// Appends bytes for which there is room.
pub fn push_text(text: &[u8], line: &mut ReplyLine)
    requires { array_vec_len line.old + length text.now ≤ 4096 }
    ensures { line.new.items ≡ line.old.items ++ text.now }
{
    line.try_extend_from_slice(text).unwrap();
}

/// What stands between commas.
pub(crate) trait Part {
    ghost text: { Self → List ℕ };

    /// Appends its text.
    fn push(&self, line: &mut ReplyLine)
        requires { array_vec_len line.old + length (text self.now) ≤ 4096 }
        ensures { line.new.items ≡ line.old.items ++ text self.now };
}

impl Part for Micro {
    ghost use Rattle.sd_model_text.specs.Numbers.{number_text};

    ghost text = { λ m. number_text m.0 };

    fn push(&self, line: &mut ReplyLine) {
        let mut text = Line::new();
        write(Sum(i128::from(self.0)), &mut text);
        push_text(text.as_slice(), line);
    }
}

impl Part for Limit {
    ghost use Rattle.sd_model_settings.specs.ConfigText.{limit_text};
    ghost use Rattle.sd_plan.specs.Entries.{limit_of};

    ghost text = { λ l. limit_text (limit_of l) };

    fn push(&self, line: &mut ReplyLine) {
        match self {
            Limit::Below(number) => number.push(line),
            Limit::Infinite => push_text(b"inf", line),
        }
    }
}

impl Part for Name {
    ghost text = { λ n. n.items };

    fn push(&self, line: &mut ReplyLine) {
        push_text(self.as_slice(), line);
    }
}

/// Appends texts joined by commas.
pub(crate) fn push_joined<T: Part>(parts: &[T], line: &mut ReplyLine)
    requires { array_vec_len line.old + length (with_commas (map T.text parts.now)) ≤ 4096 }
    ensures { line.new.items ≡ line.old.items ++ with_commas (map T.text parts.now) }
{
    match parts {
        [] => (),
        [first, rest @ ..] => match rest {
            [] => first.push(line),
            [_, ..] => {
                first.push(line);
                line.push(b',');
                push_joined(rest, line);
            }
        },
    }
}
