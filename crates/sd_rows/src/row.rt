use sd_decimal::Micro;
use sd_key::{Key, Kind, Pattern, matches};

/// A row: the kind and key that it is known by, and what it keeps from swap to swap.
#[derive(Clone, Debug, Drop)]
pub struct Row {
    pub kind: Kind,
    pub key: Key,
    /// A gauge's value at the last swap, in millionths.
    pub base: Micro,
    /// The swaps since the last sample.
    pub swaps: u32,
}

/// A row as it stands in its place, whose key isn't copied. Contracts see the row through `row_seen`.
#[derive(Clone, Copy, Debug)]
pub struct RowView<'a> {
    pub kind: Kind,
    pub key: &'a Key,
    /// A gauge's value at the last swap, in millionths.
    pub base: Micro,
    /// The swaps since the last sample.
    pub swaps: u32,
}

impl<'a> RowView<'a> {
    ghost use Rattle.std.specs.Prelude.{◌≡◌, ◌↔◌, IsTrue};
    ghost use Rattle.sd_model_shard.specs.Rows.{is_hit, is_of_kind};
    ghost use Rattle.sd_key.specs.Kind.{kind_of};
    ghost use Rattle.sd_rows.specs.RowMap.{id_of};
    ghost use Rattle.sd_rows.specs.Rows.{row_seen};

    /// Whether it is of the kind.
    pub fn is_of_kind(&self, kind: Kind) -> bool
        ensures { result ≡ is_of_kind (kind_of kind) (id_of self.now.kind self.now.key.now) }
    {
        self.kind == kind
    }

    /// Whether it is of the kind, and the pattern matches its key.
    pub fn is_hit(&self, kind: Kind, pattern: &Pattern) -> bool
        ensures { result ≡ is_hit (kind_of kind) pattern.now (id_of self.now.kind self.now.key.now) }
    {
        self.kind == kind && matches(pattern, self.key)
    }

    /// Whether it is of the kind and key.
    pub fn is_of(&self, kind: Kind, key: &Key) -> bool
        ensures { IsTrue result ↔ ((self.now.kind ≡ kind) × (self.now.key.now ≡ key.now)) }
    {
        self.kind == kind && *self.key == *key
    }

    /// A copy of the row, with a key of its own.
    pub fn to_row(&self) -> Row
        ensures { result ≡ row_seen self.now }
    {
        Row {
            kind: self.kind,
            key: self.key.clone().unwrap(),
            base: self.base,
            swaps: self.swaps,
        }
    }
}
