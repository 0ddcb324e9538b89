ghost use Rattle.std.specs.Prelude.{◌≡◌, ◌≤◌, length, map};
ghost use Rattle.std.specs.List.{list_any};
ghost use Rattle.std.specs.Str.{bytes_eq};
ghost use Rattle.sd_model_replay.specs.Replay.{limits_of as limits_by, names_backend as is_named, policy_of as policy_by, targets_of as targets_by};
ghost use Rattle.sd_plan.specs.Entries.{target_view};
ghost use Rattle.sd_epoch.specs.Limits.{limits_of as limits_view, AreLimits};
ghost use Rattle.sd_shard.specs.Policy.{policy_of as policy_view};

use sd_config::Settings;
use sd_epoch::Limits;
use sd_outside::Name;
use sd_plan::Target;
use sd_shard::Policy;

/// How many rows and entries a shard may have, and whether it makes sums on arrival.
pub fn limits_of(settings: &Settings) -> Limits
    ensures value { limits_view result ≡ limits_by settings.now }
    ensures range { AreLimits (limits_view result) }
{
    Limits {
        rows: settings.rows(),
        entries: settings.entries(),
        sums_on_arrival: settings.sums_on_arrival(),
    }
}

/// Which kinds of rows go at a flush when idle, and at which one behind its last sample a gauge does.
pub fn policy_of(settings: &Settings) -> Policy
    ensures { policy_view result ≡ policy_by settings.now }
{
    Policy {
        counters: settings.delete_counters(),
        timers: settings.delete_timers(),
        gauges: settings.delete_gauges(),
        sets: settings.delete_sets(),
        max_ttl: settings.gauges_max_ttl(),
    }
}

/// Whether a name is among others.
fn is_among(name: &[u8], names: &[Name]) -> bool
    ensures { result ≡ list_any (λ n. bytes_eq name.now n.items) names.now }
{
    names.iter().any(|n| name == n.as_slice())
}

/// Whether the settings name a backend.
pub fn names_backend(settings: &Settings, name: &[u8]) -> bool
    ensures { result ≡ is_named name.now settings.now }
{
    is_among(name, settings.backends())
}

/// Where packets are repeated to: the targets of the repeater, where it is named.
pub fn targets_of(settings: &Settings) -> &[Target]
    ensures targets { map target_view result.now ≡ targets_by settings.now }
    ensures few { length result.now ≤ 16 }
{
    if names_backend(settings, b"repeater") {
        settings.repeater()
    } else {
        &[]
    }
}
