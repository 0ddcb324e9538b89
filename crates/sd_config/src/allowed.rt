ghost use Rattle.std.specs.Prelude.{◌≡◌, is_some};
ghost use Rattle.std.specs.List.{list_any};
ghost use Rattle.std.specs.Str.{bytes_eq};
ghost use Rattle.sd_config.specs.Reported.{tells_a_setting, is_reported_name};

use crate::fault::ConfigFault;
use crate::table::{Allowed, GRAPHITE_ALLOWED, TOP_ALLOWED};

// What is allowed for a name, where it is among some.
fn allowed_among(name: &[u8], among: &[Allowed]) -> Option<&'static str>
    ensures { is_some result ≡ list_any (λ a. bytes_eq a.name.now name.now) among.now }
{
    match among {
        [] => None,
        [first, ..] if first.name.as_bytes() == name => Some(first.text),
        [_, rest @ ..] => allowed_among(name, rest),
    }
}

// What is allowed for a setting, by its name, or for the file.
fn allowed_for(name: &[u8]) -> Option<&'static str>
    ensures { is_some result ≡ is_reported_name name.now }
{
    if let Some(text) = allowed_among(name, &TOP_ALLOWED) {
        return Some(text);
    }
    if let Some(text) = allowed_among(name, &GRAPHITE_ALLOWED) {
        return Some(text);
    }
    (name == b"file".as_slice()).then_some("a file of at most 65536 bytes")
}

impl ConfigFault {
    /// What is allowed, in words, for the setting that is of another kind or out of range, or for the file that is too long.
    pub fn allowed(&self) -> Option<&'static str>
        ensures { is_some result ≡ tells_a_setting self.now }
    {
        match self {
            ConfigFault::WrongKind { name } | ConfigFault::OutOfRange { name } => {
                allowed_for(name.as_slice())
            }
            _ => None,
        }
    }
}
