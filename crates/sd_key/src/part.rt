ghost use Rattle.std.specs.Prelude.{◌↔◌, IsTrue};
ghost use Rattle.sd_law_text.specs.Bytes.{HasPart};

use crate::Key;

/// Whether the part stands somewhere in the key. The empty part stands in every key.
pub fn has_part(key: &Key, part: &[u8]) -> bool
    ensures { IsTrue result ↔ HasPart key.now part.now }
{
    let bytes = key.as_slice();
    for start in 0..=bytes.len() {
        if bytes[start..].starts_with(part) {
            return true;
        }
    }
    false
}
