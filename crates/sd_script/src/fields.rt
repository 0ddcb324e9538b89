ghost use Rattle.std.specs.Prelude.{◌≡◌, ◌≢◌, ℕ, ◌^◌, ◌<◌, ◌≤◌, true, false, decimal, length, IfSome, IfNone, MatchOption};
ghost use Rattle.std.specs.Char.{is_ascii_digit as is_digit};
ghost use Rattle.std.specs.List.{list_all};
ghost use Rattle.std.specs.Str.Parse.{digits_value};
ghost use Rattle.sd_script.specs.Fields.{Lacks, IsFirstPlace, IsCut, IsNumber};

/// The first place of a byte, where it stands among the bytes.
pub(crate) fn first_place(bytes: &[u8], byte: u8) -> Option<usize>
    ensures { MatchOption result (Lacks byte bytes.now) (IsFirstPlace byte bytes.now) }
{
    bytes.iter().position(|b| *b == byte)
}

/// The field before the first space, and what stands behind it, where there is a space.
pub(crate) fn first_field(bytes: &[u8]) -> Option<(&[u8], &[u8])>
    ensures { MatchOption result (Lacks 32 bytes.now) (λ parts. IsCut 32 bytes.now parts.0.now parts.1.now) }
{
    let space = first_place(bytes, b' ')?;
    Some((&bytes[..space], &bytes[space + 1..]))
}

/// The number that at most 18 digits stand for, where each byte is a digit.
fn value_of(digits: &[u8]) -> Option<u64>
    requires { length digits.now ≤ 18 }
    ensures { MatchOption result (list_all is_digit digits.now ≡ false)
        (λ n. (list_all is_digit digits.now ≡ true) × (n ≡ digits_value 10 digits.now)) }
{
    let mut number = 0u64;
    for digit in digits {
        if !digit.is_ascii_digit() {
            return None;
        }
        number = number * 10 + u64::from(*digit - b'0');
    }
    Some(number)
}

/// The number that digits write, where they are 1 to that many, and the first isn't 0 but in `0` itself.
pub(crate) fn number(digits: &[u8], most: usize) -> Option<u64>
    requires some { 0 < most }
    requires few { most ≤ 18 }
    ensures number { IfSome result (IsNumber digits.now most) }
    ensures other { IfNone result ((n : ℕ) → n < 10 ^ most → digits.now ≢ decimal n) }
{
    if digits.is_empty() || digits.len() > most {
        return None;
    }
    if digits[0] == b'0' && digits.len() > 1 {
        return None;
    }
    value_of(digits)
}
