//! Where newlines stand.
ghost use Rattle.std.specs.Prelude.{◌≡◌, ◌≢◌, ◌+◌, ◌<◌, ◌≤◌, false, [], ◌∷◌, ◌++◌, length, take, drop, All, MatchOption, IfNone, IfSome};
ghost use Rattle.sd_model_text.specs.Lines.{longest_datagram};
ghost use Rattle.sd_law_text.specs.Bytes.{has_byte};

use crate::cut::MOST_BYTES;

/// Where the first line of bytes ends, if a newline stands among them.
pub(crate) fn line_len(bytes: &[u8]) -> Option<usize>
    ensures { MatchOption result (All (λ b. b ≢ 10) bytes.now) (λ n. (n < length bytes.now) × All (λ b. b ≢ 10) (take n bytes.now) × (bytes.now ≡ take n bytes.now ++ 10 ∷ drop (n + 1) bytes.now)) }
{
    bytes.iter().position(|b| *b == b'\n')
}

/// The first line of bytes, where a newline ends it behind at most 65,507 of them.
pub(crate) fn short_line(bytes: &[u8]) -> Option<&[u8]>
    ensures short { IfSome result (λ line. length line.now ≤ longest_datagram) }
    ensures inside { IfSome result (λ line. length line.now < length bytes.now) }
    ensures lacks { IfSome result (λ line. has_byte 10 line.now ≡ false) }
    ensures prefix { IfSome result (λ line. take (length line.now + 1) bytes.now ≡ line.now ++ 10 ∷ []) }
    ensures none { IfNone result (has_byte 10 (take (longest_datagram + 1) bytes.now) ≡ false) }
{
    let prefix = &bytes[..bytes.len().min(MOST_BYTES + 1)];
    let len = line_len(prefix)?;
    Some(&prefix[..len])
}
