ghost use Rattle.std.specs.Prelude.{◌≡◌};
ghost use Rattle.std.specs.List.{list_any};
ghost use Rattle.std.specs.Str.{bytes_eq};

use crate::timer_class::TimerClass;
use arrayvec::ArrayVec;
use sd_outside::Name;
use std::marker::Model;

/// The classes of timers' lines that are chosen, by their names, in the order of the file: at most 16, and no two equal.
#[derive(Debug, Drop)]
pub struct Calculated {
    names: ArrayVec<Name, 16>,
}

impl Model for Calculated {
    ghost use Rattle.std.specs.Prelude.{ℕ, List};
    ghost use Rattle.sd_law_settings.specs.Ranges.{AreClassNames};
    ghost use Rattle.sd_plan.specs.Values.{name_bytes};

    ghost Value = { List (List ℕ) };

    ghost view = { λ c. name_bytes c.names.items };

    ghost invariant = { λ c. AreClassNames (name_bytes c.names.items) };
}

// Whether a name is among others.
fn is_among(name: &[u8], names: &[Name]) -> bool
    ensures { result ≡ list_any (λ n. bytes_eq name.now n.items) names.now }
{
    names.iter().any(|n| name == n.as_slice())
}

impl Calculated {
    ghost use Rattle.sd_law_settings.specs.Ranges.{AreClassNames};
    ghost use Rattle.sd_model_settings.specs.Entries.{sends};
    ghost use Rattle.sd_plan.specs.Values.{IsSetting, name_bytes};
    ghost use Rattle.sd_plan.specs.Calculated.{class_of};

    /// Names that are in range.
    pub fn of(names: ArrayVec<Name, 16>) -> Calculated
        requires { AreClassNames (name_bytes names.items) }
        ensures { result ≡ name_bytes names.items }
    {
        Calculated { names }
    }

    /// The names.
    pub fn as_slice(&self) -> &[Name]
        ensures { IsSetting AreClassNames self.now (name_bytes result.now) }
    {
        self.names.as_slice()
    }

    /// Whether the lines of a class are sent: where its name is among those chosen, and where none is chosen.
    pub fn sends(&self, class: TimerClass) -> bool
        ensures { result ≡ sends self.now (class_of class) }
    {
        match self.names.as_slice() {
            [] => true,
            names => is_among(class.name(), names),
        }
    }
}
