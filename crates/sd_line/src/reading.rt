ghost use Rattle.std.specs.Prelude.{◌≡◌, ◌^◌, ◌<◌, ◌≤◌, pos, ◌≤ℤ◌, false, length, unsigned_abs};
ghost use Rattle.sd_model_text.specs.Names.{Timer};
ghost use Rattle.sd_model_text.specs.Lines.{sample, is_long_member};
ghost use Rattle.sd_model_text.specs.Lines as model;
ghost use Rattle.sd_model_text.specs.Numbers as numbers;
ghost use Rattle.sd_key.specs.Kind.{kind_of};
ghost use Rattle.sd_line.specs.Reading.{key_view, IsHashed};

use crate::sample::{ONE, Sample};
use sd_decimal::Micro;
use sd_key::{Key, Kind};
use std::marker::Model;

/// The bytes of a key: a name that is one as it stands, with its hash, or what cleaning left of a name.
#[derive(Clone, Copy)]
pub(crate) enum KeyBytes<'a> {
    Name { bytes: &'a [u8], hash: u64 },
    Cleaned(&'a Key),
}

impl<'a> KeyBytes<'a> {
    /// Puts the key in the place of another.
    fn fill(self, key: &mut Key)
        requires short { length (key_view self) ≤ 255 }
        requires hashed { IsHashed self }
        ensures { key.new ≡ key_view self.entry }
    {
        match self {
            KeyBytes::Name { bytes, hash } => key.copy_hashed(bytes, hash),
            KeyBytes::Cleaned(source) => key.clone_from(source),
        }
    }
}

/// What a good piece says. Its bytes aren't copied.
#[derive(Drop)]
pub(crate) struct Reading<'a> {
    kind: Kind,
    key: KeyBytes<'a>,
    value: Micro,
    rate: Micro,
    signed: bool,
    member: &'a [u8],
}

impl<'a> Model for Reading<'a> {
    ghost use Rattle.sd_model_text.specs.Lines.{Sample as Value'};

    ghost Value = { Value' };

    ghost use Rattle.sd_line.specs.Reading.{reading_view, IsReading};

    ghost view = { reading_view };

    ghost invariant = { IsReading };
}

/// Whether a text begins with `+` or `-`.
pub(crate) fn has_sign(text: &[u8]) -> bool
    ensures { result ≡ numbers.has_sign text.now }
{
    matches!(text, [b'-' | b'+', ..])
}

/// The member of a value; an empty one is `0`.
fn member_of(text: &[u8]) -> &[u8]
    ensures { result.now ≡ model.member_of text.now }
{
    if text.is_empty() { b"0" } else { text }
}

impl<'a> Reading<'a> {
    /// What a key and the fields behind it say.
    #[inline(always)]
    pub(crate) fn of(
        kind: Kind,
        key: KeyBytes<'a>,
        text: &'a [u8],
        value: Micro,
        rate: Micro,
    ) -> Reading<'a>
        requires some { 0 < length (key_view key) }
        requires short { length (key_view key) ≤ 255 }
        requires hashed { IsHashed key }
        requires rate_low { pos 1 ≤ℤ rate.0 }
        requires rate_high { rate.0 ≤ℤ pos (10 ^ 9) }
        requires value { unsigned_abs value.0 ≤ 10 ^ 18 }
        requires timer { kind_of kind ≡ Timer → (pos 0 ≤ℤ value.0) × (value.0 ≤ℤ pos (10 ^ 16)) }
        requires member { is_long_member (kind_of kind) text.now ≡ false }
        ensures { result ≡ sample (kind_of kind) (key_view key.entry) text.now value.0 (unsigned_abs rate.0) }
    {
        let (rate, signed, member) = match kind {
            Kind::Counter | Kind::Timer => (rate, false, b"".as_slice()),
            Kind::Gauge => (ONE, has_sign(text), b"".as_slice()),
            Kind::Set => (ONE, false, member_of(text)),
        };
        Reading {
            kind,
            key,
            value,
            rate,
            signed,
            member,
        }
    }

    /// Puts what it says in the place of a sample.
    pub(crate) fn fill(&self, sample: &mut Sample)
        ensures { sample.new ≡ self.now }
    {
        sample.kind = self.kind;
        self.key.fill(&mut sample.key);
        sample.value = self.value;
        sample.rate = self.rate;
        sample.signed = self.signed;
        sample.put_member(self.member);
    }
}
