//! What a reply says.
ghost use Rattle.std.specs.Prelude.{◌≡◌, codes};
ghost use Rattle.sd_model_text.specs.Lists.{trim_end, is_white_space};
ghost use Rattle.std.specs.Str.{bytes_eq};

use sd_key::is_white_space;

/// The bytes without the white space at their end.
fn trimmed(bytes: &[u8]) -> &[u8]
    ensures { result.now ≡ trim_end is_white_space bytes.now }
{
    let mut rest = bytes;
    while let [prefix @ .., last] = rest {
        if !is_white_space(*last) {
            break;
        }
        rest = prefix;
    }
    rest
}

/// Whether a reply, without the white space at its end, is `health: up`.
pub fn says_up(reply: &[u8]) -> bool
    ensures { result ≡ bytes_eq (trim_end is_white_space reply.now) (codes "health: up") }
{
    trimmed(reply) == b"health: up".as_slice()
}
