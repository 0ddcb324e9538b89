ghost use Rattle.std.specs.Prelude.{◌≡◌, ◌≤◌, ◌++◌, length, take};
ghost use Rattle.sd_model_settings.specs.Settings.{shown};

use sd_outside::Name;
use sd_plan::name_of;

/// Why a file sets nothing. A name is cut to its first 64 bytes, and one in a table stands behind the table's
/// name and a point.
#[derive(Clone, Debug, PartialEq, Eq, Drop)]
pub enum ConfigFault {
    /// No memory is left.
    OutOfMemory,
    /// The file isn't TOML.
    NotToml,
    /// There is no setting of this name.
    Unknown { name: Name },
    /// The setting is of another kind.
    WrongKind { name: Name },
    /// The setting is of the right kind, and out of its range.
    OutOfRange { name: Name },
}

/// What is wrong with a value.
#[derive(Clone, Copy, Debug, PartialEq, Eq)]
pub(crate) enum ValueFault {
    /// It is of another kind.
    Kind,
    /// It is of the right kind, and out of its range.
    Range,
}

// The first `count` bytes, or all where there are fewer.
fn first_bytes(bytes: &[u8], count: usize) -> &[u8]
    ensures bytes { result.now ≡ take count bytes.now }
    ensures short { length result.now ≤ count }
{
    match bytes.get(..count) {
        Some(first_bytes) => first_bytes,
        None => bytes,
    }
}

/// The first 64 bytes of a name behind what stands before it.
pub(crate) fn shown(prefix: &str, name: &str) -> Name
    ensures { result.items ≡ shown (prefix.now ++ name.now) }
{
    let prefix = first_bytes(prefix.as_bytes(), 64);
    let name = first_bytes(name.as_bytes(), 64 - prefix.len());
    let mut shown = name_of(prefix);
    shown.try_extend_from_slice(name).unwrap();
    shown
}
