ghost use Rattle.std.specs.Prelude.{◌≡◌, ◌<◌, true, false, [], ◌∷◌, IsNone, IfSome};

use sd_line::Sample;
use std::marker::Model;

/// The samples of one shard that are left, in order.
#[derive(Debug, Drop)]
pub struct Run<'a> {
    samples: &'a [Sample],
    places: &'a [u16],
}

impl<'a> Model for Run<'a> {
    ghost use Rattle.std.specs.Prelude.{List};
    ghost use Rattle.sd_model_text.specs.Lines.{Sample as Value'};
    ghost use Rattle.sd_batch.specs.Places.{at_places, AreBelow};
    ghost use Rattle.std.specs.Prelude.{length};

    ghost Value = { List Value' };

    ghost view = { λ run. at_places run.samples.now run.places.now };

    ghost invariant = { λ run. AreBelow (length run.samples.now) run.places.now };
}

impl<'a> Run<'a> {
    ghost use Rattle.std.specs.Prelude.{length};
    ghost use Rattle.sd_batch.specs.Places.{at_places, AreBelow};

    pub(crate) fn new(samples: &'a [Sample], places: &'a [u16]) -> Run<'a>
        requires { AreBelow (length samples.now) places.now }
        ensures { result ≡ at_places samples.now places.now }
    {
        Run { samples, places }
    }

    /// Whether none is left.
    pub fn is_empty(&self) -> bool
        ensures none { result ≡ true → self.now ≡ [] }
        ensures some { result ≡ false → 0 < length self.now }
    {
        self.places.is_empty()
    }

    /// The next sample. None at the end.
    pub fn next(&mut self) -> Option<&'a Sample>
        ensures end { IsNone result → (self.old ≡ []) × (self.new ≡ []) }
        ensures next { IfSome result (λ s. self.old ≡ s.now ∷ self.new) }
    {
        let (place, rest) = self.places.split_first()?;
        self.places = rest;
        Some(&self.samples[usize::from(*place)])
    }
}
