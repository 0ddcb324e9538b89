ghost use Rattle.std.specs.Prelude.{◌≡◌, ◌^◌, ◌≤◌, pos, false, [], ◌∷◌, length};
ghost use Rattle.sd_model_text.specs.Names.{Counter};

use arrayvec::ArrayVec;
use sd_decimal::Micro;
use sd_key::{Key, Kind};
use std::marker::Model;

/// The rate 1.
pub(crate) const ONE: Micro = Micro(1_000_000);

/// A member of a set: at most 128 bytes.
pub type Member = ArrayVec<u8, 128>;

/// A sample of a metric. A set's value is 0, and only a set has a member. The rate is 1 where a line has
/// none. `signed` says that a gauge's value began with a sign.
#[derive(Clone, Debug, Drop)]
pub struct Sample {
    pub kind: Kind,
    pub key: Key,
    pub value: Micro,
    pub rate: Micro,
    pub signed: bool,
    pub member: Member,
}

impl Model for Sample {
    ghost use Rattle.sd_model_text.specs.Lines.{Sample as Value'};

    ghost Value = { Value' };

    ghost use Rattle.sd_line.specs.Sample.{sample_view, IsSample};

    ghost view = { sample_view };

    ghost invariant = { IsSample };
}

impl Sample {
    /// A sample to lend to `Lines::next_into`: the value 0 of a counter `_`.
    pub fn blank() -> Sample
        ensures { result ≡ record { kind = Counter; key = 95 ∷ []; value = pos 0; rate = 10 ^ 6; is_signed = false; member = [] } }
    {
        Sample {
            kind: Kind::Counter,
            key: Key::of(b"_").unwrap(),
            value: Micro(0),
            rate: ONE,
            signed: false,
            member: Member::new(),
        }
    }

    /// Puts a member in the place of its own.
    pub(crate) fn put_member(&mut self, member: &[u8])
        requires { length member.now ≤ 128 }
        ensures { self.new ≡ record self.old { member = member.now } }
    {
        self.member.clear();
        if !member.is_empty() {
            self.member.try_extend_from_slice(member).unwrap();
        }
    }

    /// Takes the parts of another sample in the place of its own. It copies no more bytes than key and member have.
    pub fn clone_from(&mut self, source: &Sample)
        ensures { self.new ≡ source.now }
    {
        self.kind = source.kind;
        self.key.clone_from(&source.key);
        self.value = source.value;
        self.rate = source.rate;
        self.signed = source.signed;
        self.put_member(source.member.as_slice());
    }
}
