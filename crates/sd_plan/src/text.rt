ghost use Rattle.std.specs.Prelude.{◌≡◌, ◌≤◌, length};

use sd_outside::Name;

/// The bytes as a name.
pub fn name_of(bytes: &[u8]) -> Name
    requires { length bytes.now ≤ 255 }
    ensures { result.items ≡ bytes.now }
{
    let mut name = Name::new();
    name.try_extend_from_slice(bytes).unwrap();
    name
}

/// The same name once more, for which no memory is taken.
pub fn copied(name: &Name) -> Name
    ensures { result.items ≡ name.now.items }
{
    name.clone().unwrap()
}
