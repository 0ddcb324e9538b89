ghost use Rattle.std.specs.Prelude.{◌≡◌, ◌<◌, ◌≤◌, ◌+◌, length, take, true, false, IfSome, option_map, Ok};
ghost use Rattle.sd_model_text.specs.Lists.{cut_at};
ghost use Rattle.sd_model_text.specs.Names.{clean, fnv1a};
ghost use Rattle.sd_line.specs.Named.{named_view};

use crate::cut::{cut_around, first_cut};
use sd_key::name_prefix;

/// The name before the first colon of a line, and what stands behind it. `is_key` says that the name is a key
/// as it stands, where that is known, and `hash` is the hash of that key then.
#[derive(Clone, Copy)]
pub(crate) struct Named<'a> {
    pub name: &'a [u8],
    pub rest: &'a [u8],
    pub is_key: bool,
    pub hash: u64,
}

/// The name of a line, where it has one. Most names are keys as they stand, and end at the first byte that no key
/// has.
pub(crate) fn name_of(line: &[u8]) -> Option<Named<'_>>
    ensures cut { option_map named_view result ≡ cut_at 58 line.now }
    ensures key { IfSome result (λ n. n.is_key ≡ true → clean n.name.now ≡ Ok n.name.now) }
    ensures hash { IfSome result (λ n. n.is_key ≡ true → n.hash ≡ fnv1a n.name.now) }
{
    let prefix = name_prefix(line);
    let len = prefix.len;
    match line.get(len) {
        Some(b':') if 0 < len && len <= 255 => {
            let cut = cut_around(line, len);
            Some(Named {
                name: cut.part,
                rest: cut.rest,
                is_key: true,
                hash: prefix.hash,
            })
        }
        _ => {
            let cut = first_cut(line, b':')?;
            Some(Named {
                name: cut.part,
                rest: cut.rest,
                is_key: false,
                hash: 0,
            })
        }
    }
}
