ghost use Rattle.std.specs.Prelude.{◌≡◌};
ghost use Rattle.sd_shard.specs.Policy.{policy_of};
ghost use Rattle.sd_key.specs.Kind.{kind_of};
ghost use Rattle.sd_model_shard.specs.Shard.{expires as expires_by};

use sd_key::Kind;

/// Which kinds are deleted when idle, and after how many swaps without a sample a gauge is.
#[derive(Clone, Copy, Debug, PartialEq, Eq)]
pub struct Policy {
    pub counters: bool,
    pub timers: bool,
    pub gauges: bool,
    pub sets: bool,
    pub max_ttl: u32,
}

impl Policy {
    /// Whether a row of this kind goes at a swap that is so many swaps behind its last sample.
    pub fn expires(&self, kind: Kind, swaps: u32) -> bool
        ensures { result ≡ expires_by (policy_of self.now) (kind_of kind) swaps }
    {
        match kind {
            Kind::Counter => self.counters,
            Kind::Timer => self.timers,
            Kind::Gauge => self.gauges && swaps >= self.max_ttl,
            Kind::Set => self.sets,
        }
    }
}
