ghost use Rattle.std.specs.Prelude.{◌≡◌, nat_lt, length, drop, option_map};
ghost use Rattle.sd_model_text.specs.Lists.{split};
ghost use Rattle.sd_model_text.specs.Lines.{field};
ghost use Rattle.sd_line.specs.Cut.{parts_in};

use crate::cut::{Part, first_part};

/// The first field of bytes, where any are left. A field that isn't there has no byte.
fn first_field(left: Option<&[u8]>) -> Part<'_>
    ensures text { result.text.now ≡ field 0 (parts_in 124 (option_map (λ b. b.now) left.entry)) }
    ensures behind { parts_in 124 (option_map (λ b. b.now) result.behind) ≡ drop 1 (parts_in 124 (option_map (λ b. b.now) left.entry)) }
{
    match left {
        Some(bytes) => first_part(bytes, b'|'),
        None => Part {
            text: &[],
            behind: None,
        },
    }
}

/// What stands behind the name of a piece: its value, type and rate, and whether there are further fields. A
/// field that isn't there has no byte.
#[derive(Clone, Copy)]
pub(crate) struct Fields<'a> {
    pub value: &'a [u8],
    pub kind: &'a [u8],
    pub rate: &'a [u8],
    pub has_more: bool,
}

impl<'a> Fields<'a> {
    /// The fields between the bars.
    pub(crate) fn of(rest: &'a [u8]) -> Fields<'a>
        ensures value { result.value.now ≡ field 0 (split 124 rest.now) }
        ensures kind { result.kind.now ≡ field 1 (split 124 rest.now) }
        ensures rate { result.rate.now ≡ field 2 (split 124 rest.now) }
        ensures more { result.has_more ≡ nat_lt 3 (length (split 124 rest.now)) }
    {
        let value = first_field(Some(rest));
        let kind = first_field(value.behind);
        let rate = first_field(kind.behind);
        Fields {
            value: value.text,
            kind: kind.text,
            rate: rate.text,
            has_more: rate.behind.is_some(),
        }
    }
}
