ghost use Rattle.std.specs.Prelude.{◌≡◌, ◌<◌, ℕ, List, [], ◌∷◌, ◌++◌, length, Ok, Err, IfOk, IfErr, IfSome};
ghost use Rattle.std.specs.List.{list_all};
ghost use Rattle.std.specs.Option.{option_to_list};
ghost use Rattle.sd_model_text.specs.Lists.{is_white_space};
ghost use Rattle.sd_model_text.specs.Names.{clean, cleaned, is_name_byte};
ghost use Rattle.sd_key.specs.Clean.{ends_blank, fault_of};

use crate::Key;
use arrayvec::ArrayVec;

/// Why a name has no key.
#[derive(Clone, Copy, Debug, PartialEq, Eq)]
pub enum KeyFault {
    /// No byte of it is left.
    Empty,
    /// More than 255 bytes of it are left, namely `len`.
    Long { len: usize },
}

/// The key of a name. Each run of white space becomes one `_`, each `/` becomes `-`, and then every byte that
/// isn't a letter, digit, `_`, `-` or `.` is dropped.
///
/// # Errors
///
/// `Empty` where no byte is left, and `Long` where more than 255 are.
pub fn clean(name: &[u8]) -> Result<Key, KeyFault>
    ensures ok { IfOk result (λ key. clean name.now ≡ Ok key) }
    ensures some { IfOk result (λ key. 0 < length key) }
    ensures err { IfErr result (λ fault. clean name.now ≡ Err (fault_of fault)) }
{
    match key_as_it_stands(name) {
        Some(key) => Ok(key),
        None => clean_each(name),
    }
}

/// The key of a name that has a byte and is its own key, as most names are: that costs less than to clean each byte.
fn key_as_it_stands(name: &[u8]) -> Option<Key>
    ensures key { IfSome result (λ key. clean name.now ≡ Ok key) }
    ensures some { IfSome result (λ key. 0 < length key) }
{
    if name.is_empty() || !is_clean(name) {
        return None;
    }
    Key::of(name)
}

/// Whether a key may have each byte of a name.
fn is_clean(name: &[u8]) -> bool
    ensures { result ≡ list_all is_name_byte name.now }
{
    name.iter().all(|b| is_name_byte(*b))
}

/// The key of a name, byte by byte.
fn clean_each(name: &[u8]) -> Result<Key, KeyFault>
    ensures ok { IfOk result (λ key. clean name.now ≡ Ok key) }
    ensures some { IfOk result (λ key. 0 < length key) }
    ensures err { IfErr result (λ fault. clean name.now ≡ Err (fault_of fault)) }
{
    let mut bytes = ArrayVec::new();
    let mut len = 0;
    let mut after_blank = false;
    for b in name {
        if let Some(byte) = kept(*b, after_blank) {
            len += 1;
            if !bytes.is_full() {
                bytes.push(byte);
            }
        }
        after_blank = is_white_space(*b);
    }
    if len == 0 {
        Err(KeyFault::Empty)
    } else if len > bytes.capacity() {
        Err(KeyFault::Long { len })
    } else {
        Ok(Key::from_bytes(bytes))
    }
}

/// What a byte of a name leaves in its key, where `after_blank` says whether white space stands before it.
fn kept(b: u8, after_blank: bool) -> Option<u8>
    ensures { (prefix : List ℕ) → ends_blank prefix ≡ after_blank
        → cleaned (prefix ++ b ∷ []) ≡ cleaned prefix ++ option_to_list result }
{
    if is_white_space(b) {
        (!after_blank).then_some(b'_')
    } else if b == b'/' {
        Some(b'-')
    } else {
        is_name_byte(b).then_some(b)
    }
}

/// Whether a byte is white space: one of the bytes 9 to 13, or 32.
pub fn is_white_space(b: u8) -> bool
    ensures { result ≡ is_white_space b }
{
    matches!(b, 9..=13 | b' ')
}

// Each byte that a key may have stands at its own place, and a comma at every other place.
static NAME_BYTES: [u8; 256] = *b"\
    ,,,,,,,,,,,,,,,,,,,,,,,,,,,,,,,,\
    ,,,,,,,,,,,,,-.,0123456789,,,,,,\
    ,ABCDEFGHIJKLMNOPQRSTUVWXYZ,,,,_\
    ,abcdefghijklmnopqrstuvwxyz,,,,,\
    ,,,,,,,,,,,,,,,,,,,,,,,,,,,,,,,,\
    ,,,,,,,,,,,,,,,,,,,,,,,,,,,,,,,,\
    ,,,,,,,,,,,,,,,,,,,,,,,,,,,,,,,,\
    ,,,,,,,,,,,,,,,,,,,,,,,,,,,,,,,,";

/// Whether a key may have the byte: a letter, a digit, `_`, `-` or `.`.
pub fn is_name_byte(b: u8) -> bool
    ensures { result ≡ is_name_byte b }
{
    NAME_BYTES[b as usize] != b','
}
