ghost use Rattle.std.specs.Prelude.{◌≡◌, ◌<◌, ◌+◌, ◌∷◌, length, take, drop, IfSome, MatchOption, None, Some, option_map};
ghost use Rattle.sd_model_text.specs.Lists.{cut_at, split, trim_end, is_white_space};
ghost use Rattle.sd_line.specs.Cut.{cut_view, parts_in};

use memchr::memchr;
use sd_key::is_white_space;

/// What stands before a separator, and what stands behind it.
#[derive(Clone, Copy, Debug)]
pub(crate) struct Cut<'a> {
    pub part: &'a [u8],
    pub rest: &'a [u8],
}

/// The place of the first separator, where there is one.
// A call of its own keeps the loop small.
#[inline(never)]
fn place_of(bytes: &[u8], separator: u8) -> Option<usize>
    ensures cut { option_map (λ i. record { part = take i bytes.now; rest = drop (i + 1) bytes.now }) result
        ≡ cut_at separator bytes.now }
    ensures inside { IfSome result (λ i. i < length bytes.now) }
{
    for (i, byte) in bytes.iter().enumerate() {
        if *byte == separator {
            return Some(i);
        }
    }
    None
}

/// The same by vectors, which costs less where the separator is far, as a newline is, and more where it is near.
#[inline(always)]
fn far_place_of(bytes: &[u8], separator: u8) -> Option<usize>
    ensures cut { option_map (λ i. record { part = take i bytes.now; rest = drop (i + 1) bytes.now }) result
        ≡ cut_at separator bytes.now }
    ensures inside { IfSome result (λ i. i < length bytes.now) }
{
    memchr(separator, bytes)
}

/// The bytes cut around the one at this place.
pub(crate) fn cut_around(bytes: &[u8], place: usize) -> Cut<'_>
    requires { place < length bytes.now }
    ensures part { result.part.now ≡ take place bytes.now }
    ensures rest { result.rest.now ≡ drop (place + 1) bytes.now }
{
    Cut {
        part: &bytes[..place],
        rest: &bytes[place + 1..],
    }
}

/// The bytes cut at their first separator, where they have one.
pub(crate) fn first_cut(bytes: &[u8], separator: u8) -> Option<Cut<'_>>
    ensures cut { option_map cut_view result ≡ cut_at separator bytes.now }
    ensures whole { IfSome result (λ c. length c.part.now + length c.rest.now + 1 ≡ length bytes.now) }
{
    let place = place_of(bytes, separator)?;
    Some(cut_around(bytes, place))
}

/// The same as `first_cut`, for separators that are far from each other.
#[inline(always)]
pub(crate) fn far_cut(bytes: &[u8], separator: u8) -> Option<Cut<'_>>
    ensures cut { option_map cut_view result ≡ cut_at separator bytes.now }
    ensures whole { IfSome result (λ c. length c.part.now + length c.rest.now + 1 ≡ length bytes.now) }
{
    let place = far_place_of(bytes, separator)?;
    Some(cut_around(bytes, place))
}

/// The first part of bytes, and what stands behind its separator, where it has one.
#[derive(Clone, Copy, Debug)]
pub(crate) struct Part<'a> {
    pub text: &'a [u8],
    pub behind: Option<&'a [u8]>,
}

/// The first of the parts between separators.
pub(crate) fn first_part(bytes: &[u8], separator: u8) -> Part<'_>
    ensures { split separator bytes.now ≡ result.text.now ∷ parts_in separator (option_map (λ b. b.now) result.behind) }
{
    match first_cut(bytes, separator) {
        Some(cut) => Part {
            text: cut.part,
            behind: Some(cut.rest),
        },
        None => Part {
            text: bytes,
            behind: None,
        },
    }
}

/// The bytes without the white space at their end.
pub(crate) fn trimmed(bytes: &[u8]) -> &[u8]
    ensures { result.now ≡ trim_end is_white_space bytes.now }
{
    let mut rest = bytes;
    while let [prefix @ .., last] = rest {
        if !is_white_space(*last) {
            break;
        }
        rest = prefix;
    }
    rest
}
