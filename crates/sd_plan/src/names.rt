ghost use Rattle.std.specs.Prelude.{◌≡◌, ◌<◌, length};
ghost use Rattle.sd_model_settings.specs.Settings.{names_of, default_settings};
ghost use Rattle.sd_law_settings.specs.Ranges.{IsPrefix, NamespaceInRange};
ghost use Rattle.sd_plan.specs.Names.{namespace_view};
ghost use Rattle.sd_plan.specs.Values.{IsSetting};

use crate::text::name_of;
use sd_outside::Name;
use std::marker::Model;

/// How Graphite's names are made.
#[derive(Debug, Drop)]
pub struct Namespace {
    pub legacy: bool,
    pub global_prefix: Name,
    pub prefix_counter: Name,
    pub prefix_timer: Name,
    pub prefix_gauge: Name,
    pub prefix_set: Name,
    pub global_suffix: Name,
}

/// What Graphite's names are made of.
#[derive(Debug, Drop)]
pub struct Names {
    namespace: Namespace,
    prefix_stats: Name,
}

impl Model for Names {
    ghost use Rattle.std.specs.Prelude.{◌<◌, length};
    ghost use Rattle.sd_model_settings.specs.Settings.{Names as ModelNames};
    ghost use Rattle.sd_law_settings.specs.Ranges.{IsPrefix, NamespaceInRange};
    ghost use Rattle.sd_plan.specs.Names.{namespace_view};

    ghost Value = { ModelNames };

    ghost view = { λ n. record { namespace = namespace_view n.namespace; prefix_stats = n.prefix_stats.items } };

    ghost invariant = { λ n. NamespaceInRange (namespace_view n.namespace)
        × IsPrefix n.prefix_stats.items × (0 < length n.prefix_stats.items) };
}

impl Names {
    /// Names that are in range.
    pub fn new(namespace: Namespace, prefix_stats: Name) -> Names
        requires namespace { NamespaceInRange (namespace_view namespace) }
        requires prefix_stats { IsPrefix prefix_stats.items × (0 < length prefix_stats.items) }
        ensures { result ≡ record { namespace = namespace_view namespace; prefix_stats = prefix_stats.items } }
    {
        Names {
            namespace,
            prefix_stats,
        }
    }

    /// The names that the defaults make.
    #[tactic(auto, using(sd_law_settings::proofs::DefaultsInRange::defaults_in_range), unfolding(sd_model_settings::proofs::OnLiterals::defaults_on_literals))]
    pub fn plain() -> Names
        ensures { result ≡ names_of default_settings }
    {
        Names {
            namespace: Namespace {
                legacy: true,
                global_prefix: name_of(b"stats"),
                prefix_counter: name_of(b"counters"),
                prefix_timer: name_of(b"timers"),
                prefix_gauge: name_of(b"gauges"),
                prefix_set: name_of(b"sets"),
                global_suffix: name_of(b""),
            },
            prefix_stats: name_of(b"statsd"),
        }
    }

    /// How Graphite's names are made.
    pub fn namespace(&self) -> &Namespace
        ensures { IsSetting NamespaceInRange self.now.namespace (namespace_view result.now) }
    {
        &self.namespace
    }

    /// The prefix of the server's own metrics, which isn't empty.
    pub fn prefix_stats(&self) -> &Name
        ensures setting { IsSetting IsPrefix self.now.prefix_stats result.now.items }
        ensures some { 0 < length result.now.items }
    {
        &self.prefix_stats
    }
}
