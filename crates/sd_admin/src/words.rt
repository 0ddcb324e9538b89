ghost use Rattle.std.specs.Prelude.{◌≡◌, ◌≤◌, ◌∷◌, [], length, IfSome, MatchOption, option_map, slice_get, not};
ghost use Rattle.std.specs.List.{position_or_len};
ghost use Rattle.sd_model_text.specs.Lists.{is_white_space};
ghost use Rattle.sd_model_record.specs.Admin.{words};

use sd_key::is_white_space;

/// A word, and what stands behind it.
#[derive(Clone, Copy, Debug)]
pub struct Word<'a> {
    pub text: &'a [u8],
    pub rest: &'a [u8],
}

/// How many bytes of white space bytes begin with.
fn leading_blanks(bytes: &[u8]) -> usize
    ensures place { result ≡ position_or_len (λ b. not (is_white_space b)) bytes.now }
    ensures within { result ≤ length bytes.now }
{
    bytes
        .iter()
        .position(|b| !is_white_space(*b))
        .unwrap_or(bytes.len())
}

/// How many bytes before the first white space bytes begin with.
fn word_len(bytes: &[u8]) -> usize
    ensures place { result ≡ position_or_len is_white_space bytes.now }
    ensures within { result ≤ length bytes.now }
{
    bytes
        .iter()
        .position(|b| is_white_space(*b))
        .unwrap_or(bytes.len())
}

/// The first word of a line, where it has one. Words are parted by runs of white space, the bytes 9 to 13 and 32.
pub fn first_word(line: &[u8]) -> Option<Word<'_>>
    ensures words { MatchOption result (words line.now ≡ []) (λ w. words line.now ≡ w.text.now ∷ words w.rest.now) }
    ensures within { IfSome result (λ w. (length w.text.now ≤ length line.now) × (length w.rest.now ≤ length line.now)) }
{
    let from_word = &line[leading_blanks(line)..];
    if from_word.is_empty() {
        return None;
    }
    let (text, rest) = from_word.split_at(word_len(from_word));
    Some(Word { text, rest })
}

/// The i-th word of a line, from 0, where it has one.
pub(crate) fn word_at(line: &[u8], i: usize) -> Option<&[u8]>
    ensures word { option_map (λ w. w.now) result ≡ slice_get (words line.now) i }
    ensures within { IfSome result (λ w. length w.now ≤ length line.now) }
{
    let mut rest = line;
    for _ in 0..i {
        rest = first_word(rest)?.rest;
    }
    Some(first_word(rest)?.text)
}
