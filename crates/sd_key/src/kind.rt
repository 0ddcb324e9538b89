ghost use Rattle.std.specs.Prelude.{◌≡◌};
ghost use Rattle.std.specs.Ordering.{nat_cmp};
ghost use Rattle.sd_model_text.specs.Names.{rank};
ghost use Rattle.sd_key.specs.declared.kind.Kind.{Kind as CodeKind};
ghost use Rattle.sd_key.specs.Kind.{kind_of};

/// The kind of a metric, in the order in which a record has them.
#[derive(Clone, Copy, Debug, PartialEq, Eq, PartialOrd, Ord, Hash)]
pub enum Kind {
    Counter,
    Timer,
    Gauge,
    Set,
}

/// Kinds compare as their places in a record do.
pub fn kinds_order()
    ensures order { (a b : CodeKind) → ⟦<Kind as Ord>⟧.cmp a b ≡ nat_cmp (rank (kind_of a)) (rank (kind_of b)) }
    ensures same { (a b : CodeKind) → kind_of a ≡ kind_of b → a ≡ b }
{}
