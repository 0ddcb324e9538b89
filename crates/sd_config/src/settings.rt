ghost use Rattle.std.specs.Prelude.{◌≡◌, ◌*◌, ◌<◌, ◌≤◌, length, map};
ghost use Rattle.toml.specs.View.{table_view};
ghost use Rattle.sd_model_settings.specs.Settings.{top, setting_tables, settings_in, document, settings, plan_of};
ghost use Rattle.sd_law_settings.specs.Ranges.{IsWithin, IsPrefix, IsHost, AreThresholds, AreBackends, AreClassNames, AreHistograms, AreTargets, AreNodes, InRange};
ghost use Rattle.sd_config.specs.Answers.{Gives};
ghost use Rattle.sd_plan.specs.Values.{IsSetting, micros, name_bytes};
ghost use Rattle.sd_plan.specs.Entries.{classes_view, target_view, node_view};
ghost use Rattle.sd_plan.specs.Plan.{plan_view};

use crate::fault::{ConfigFault, shown};
use crate::groups::{
    Addresses, Deletions, EntryLists, FlushRules, Server, Sizes, Transport, addresses_in,
    deletions_in, entry_lists_in, flush_rules_in, namespace_in, server_in, sizes_in, transport_in,
};
use crate::known_names::unknown;
use crate::section::Section;
use arrayvec::ArrayVec;
use sd_decimal::Micro;
use sd_outside::Name;
use sd_plan::{Calculated, Classes, Histograms, Namespace, Node, Reckoning, Target, Thresholds};
use std::alloc::Global;
use std::marker::Model;
use toml::Table;

// The largest file, in bytes.
const LONGEST: usize = 65_536;

/// The settings in force. No call but `read` takes memory.
#[derive(Debug, Drop)]
pub struct Settings {
    port: u32,
    mgmt_port: u32,
    plan: Reckoning,
    deletions: Deletions,
    addresses: Addresses,
    namespace: Namespace,
    repeater: ArrayVec<Target, 16>,
    nodes: ArrayVec<Node, 64>,
    sizes: Sizes,
    gauges_max_ttl: u32,
    transport: Transport,
}

impl Model for Settings {
    ghost use Rattle.std.specs.Prelude.{map};
    ghost use Rattle.sd_model_settings.specs.Settings.{Settings as ModelSettings};
    ghost use Rattle.sd_law_settings.specs.Ranges.{IsWithin, NamespaceInRange, AreTargets, AreNodes, AreInRange};
    ghost use Rattle.sd_model_settings.specs.Table.{addresses as address_table, sizes as size_table, transport as transport_table};
    ghost use Rattle.sd_plan.specs.Entries.{target_view, node_view};
    ghost use Rattle.sd_config.specs.Groups.{deletions_view, addresses_view, sizes_view, transport_view};
    ghost use Rattle.sd_plan.specs.Names.{namespace_view};

    ghost Value = { ModelSettings };

    ghost view = { λ s. record {
      server = record {
        port = s.port;
        mgmt_port = s.mgmt_port;
        flush_interval = s.plan.interval_ms;
        percent_threshold = s.plan.thresholds;
      };
      deletions = deletions_view s.deletions;
      addresses = addresses_view s.addresses;
      namespace = namespace_view s.namespace;
      lists = record {
        histogram = s.plan.histograms;
        repeater = map target_view s.repeater.items;
        nodes = map node_view s.nodes.items;
      };
      sizes = sizes_view s.sizes;
      rules = record {
        gauges_max_ttl = s.gauges_max_ttl;
        calculated_timer_metrics = s.plan.calculated;
      };
      transport = transport_view s.transport;
    } };

    // the ranges of what the plan has are kept by its own fields
    ghost invariant = { λ s. (IsWithin 1 65535 s.port × IsWithin 1 65535 s.mgmt_port)
        × AreInRange address_table (addresses_view s.addresses)
        × NamespaceInRange (namespace_view s.namespace)
        × AreTargets (map target_view s.repeater.items)
        × AreNodes (map node_view s.nodes.items)
        × AreInRange size_table (sizes_view s.sizes)
        × IsWithin 1 1000000000 s.gauges_max_ttl
        × AreInRange transport_table (transport_view s.transport) };
}

#[tactic(auto, unfolding(sd_model_settings::specs::Settings::settings_in))]
fn settings_in(table: &Table) -> Result<Settings, ConfigFault>
    ensures { Gives (λ s. s) result (settings_in setting_tables (top (table_view table.now))) }
{
    let top = Section {
        prefix: "",
        table: Some(table),
    };
    let Server {
        port,
        mgmt_port,
        flush_interval,
        percent_threshold,
    } = server_in(&top)?;
    let deletions = deletions_in(&top)?;
    let addresses = addresses_in(&top)?;
    let graphite = Section {
        prefix: "graphite.",
        table: top.table("graphite")?,
    };
    let namespace = namespace_in(&graphite)?;
    let EntryLists {
        histogram,
        repeater,
        nodes,
    } = entry_lists_in(&top)?;
    let sizes = sizes_in(&top)?;
    let FlushRules {
        gauges_max_ttl,
        calculated_timer_metrics,
    } = flush_rules_in(&top)?;
    let transport = transport_in(&top)?;
    let plan = Reckoning {
        interval_ms: flush_interval,
        thresholds: Thresholds::of(percent_threshold),
        histograms: Histograms::of(histogram),
        calculated: Calculated::of(calculated_timer_metrics),
    };
    Ok(Settings {
        port,
        mgmt_port,
        plan,
        deletions,
        addresses,
        namespace,
        repeater,
        nodes,
        sizes,
        gauges_max_ttl,
        transport,
    })
}

// The table that bytes are.
#[tactic(auto, unfolding(sd_model_settings::specs::Settings::document))]
fn document(alloc: Global, text: &[u8]) -> Result<Table, ConfigFault>
    ensures { Gives table_view result (document text.now) }
{
    match toml::table_from_slice(alloc, text) {
        Ok(table) => Ok(table),
        Err(error) if error.is_memory() => Err(ConfigFault::OutOfMemory),
        Err(_) => Err(ConfigFault::NotToml),
    }
}

impl Settings {
    /// The settings that a file sets.
    ///
    /// # Errors
    ///
    /// The file's first fault, or `OutOfMemory`, which alone may come whatever the file is.
    #[tactic(auto, unfolding(sd_model_settings::specs::Settings::settings, sd_model_settings::specs::Settings::settings_by))]
    pub fn read(alloc: Global, text: &[u8]) -> Result<Settings, ConfigFault>
        ensures exact { Gives (λ s. s) result (settings text.now) }
    {
        if text.len() > LONGEST {
            return Err(ConfigFault::OutOfRange {
                name: shown("", "file"),
            });
        }
        let table = document(alloc, text)?;
        match unknown(&table) {
            Some(name) => Err(ConfigFault::Unknown { name }),
            None => settings_in(&table),
        }
    }

    /// What a record is made by.
    pub fn plan(&self) -> &Reckoning
        ensures { plan_view result.now ≡ plan_of self.now }
    {
        &self.plan
    }

    /// The port of datagrams.
    pub fn port(&self) -> u32
        ensures { IsSetting (IsWithin 1 65535) self.now.server.port result }
    {
        self.port
    }

    /// The address of datagrams.
    pub fn address(&self) -> &Name
        ensures { IsSetting IsHost self.now.addresses.address result.now.items }
    {
        &self.addresses.address
    }

    /// The port of streams of lines; 0 is none.
    pub fn tcp_port(&self) -> u32
        ensures { IsSetting (λ n. n ≤ 65535) self.now.transport.tcp_port result }
    {
        self.transport.tcp_port
    }

    /// Whether the samples of counters and gauges are summed up as they come, and take none of a shard's entries.
    pub fn sums_on_arrival(&self) -> bool
        ensures { result ≡ self.now.transport.sums_on_arrival }
    {
        self.transport.sums_on_arrival
    }

    /// The port at which a proxy answers admin lines; 0 is none.
    pub fn proxy_mgmt_port(&self) -> u32
        ensures { IsSetting (λ n. n ≤ 65535) self.now.transport.proxy_mgmt_port result }
    {
        self.transport.proxy_mgmt_port
    }

    /// Whether flushes are at multiples of `flush_interval` of the system's clock.
    pub fn align_flushes(&self) -> bool
        ensures { result ≡ self.now.transport.align_flushes }
    {
        self.transport.align_flushes
    }

    /// How many bytes of lines a proxy puts into one datagram; 0 is a datagram a line.
    pub fn batch_bytes(&self) -> u32
        ensures { IsSetting (λ n. n ≤ 65507) self.now.transport.batch_bytes result }
    {
        self.transport.batch_bytes
    }

    /// How many bytes of room for the datagrams that wait for it each receiver asks the system for; 0 asks for none.
    pub fn receive_buffer(&self) -> u32
        ensures { IsSetting (λ n. n ≤ 1073741824) self.now.transport.receive_buffer result }
    {
        self.transport.receive_buffer
    }

    /// The port of admin sessions.
    pub fn mgmt_port(&self) -> u32
        ensures { IsSetting (IsWithin 1 65535) self.now.server.mgmt_port result }
    {
        self.mgmt_port
    }

    /// The address of admin sessions.
    pub fn mgmt_address(&self) -> &Name
        ensures { IsSetting IsHost self.now.addresses.mgmt_address result.now.items }
    {
        &self.addresses.mgmt_address
    }

    /// The backends that are used.
    pub fn backends(&self) -> &[Name]
        ensures { IsSetting AreBackends self.now.addresses.backends (name_bytes result.now) }
    {
        self.addresses.backends.as_slice()
    }

    /// How many texts may wait for each backend; with 0 the flusher writes them itself.
    pub fn outlets(&self) -> u32
        ensures { IsSetting (λ n. n ≤ 64) self.now.transport.outlets result }
    {
        self.transport.outlets
    }

    /// How many bytes a text that waits may have. The texts of a backend have at most 268,435,456 together.
    pub fn outlet_bytes(&self) -> u32
        ensures setting { IsSetting (IsWithin 65536 16777216) self.now.transport.outlet_bytes result }
        ensures all { self.now.transport.outlets * result ≤ 268435456 }
    {
        self.transport.outlet_bytes
    }

    /// The time between two flushes, in milliseconds.
    pub fn flush_interval(&self) -> u32
        ensures { IsSetting (IsWithin 1 86400000) self.now.server.flush_interval result }
    {
        self.plan.interval_ms
    }

    /// After how many flushes a run ends; 0 is never.
    pub fn run_flushes(&self) -> u32
        ensures { IsSetting (λ n. n ≤ 1000000000) self.now.sizes.run_flushes result }
    {
        self.sizes.run_flushes
    }

    /// Whether idle rows are deleted, unless their kind has a setting of its own.
    pub fn delete_idle_stats(&self) -> bool
        ensures { result ≡ self.now.deletions.idle_stats }
    {
        self.deletions.idle_stats
    }

    /// At which swap behind its last sample a gauge goes, where gauges are deleted when idle.
    pub fn gauges_max_ttl(&self) -> u32
        ensures { IsSetting (IsWithin 1 1000000000) self.now.rules.gauges_max_ttl result }
    {
        self.gauges_max_ttl
    }

    /// The number of receivers.
    pub fn receivers(&self) -> u32
        ensures { IsSetting (IsWithin 1 16) self.now.sizes.receivers result }
    {
        self.sizes.receivers
    }

    /// The number of shards.
    pub fn shards(&self) -> u32
        ensures { IsSetting (IsWithin 1 16) self.now.sizes.shards result }
    {
        self.sizes.shards
    }

    /// The number of rows of a shard.
    pub fn rows(&self) -> u32
        ensures { IsSetting (IsWithin 1 16384) self.now.sizes.rows result }
    {
        self.sizes.rows
    }

    /// The number of entries of a shard. All shards have at most 2,097,152 together.
    pub fn entries(&self) -> u32
        ensures setting { IsSetting (IsWithin 1 1048576) self.now.sizes.entries result }
        ensures all { self.now.sizes.shards * result ≤ 2097152 }
    {
        self.sizes.entries
    }

    /// The prefix of counters.
    pub fn prefix_counter(&self) -> &Name
        ensures { IsSetting IsPrefix self.now.namespace.prefix_counter result.now.items }
    {
        &self.namespace.prefix_counter
    }

    /// The prefix of timers.
    pub fn prefix_timer(&self) -> &Name
        ensures { IsSetting IsPrefix self.now.namespace.prefix_timer result.now.items }
    {
        &self.namespace.prefix_timer
    }

    /// The prefix of gauges.
    pub fn prefix_gauge(&self) -> &Name
        ensures { IsSetting IsPrefix self.now.namespace.prefix_gauge result.now.items }
    {
        &self.namespace.prefix_gauge
    }

    /// The prefix of sets.
    pub fn prefix_set(&self) -> &Name
        ensures { IsSetting IsPrefix self.now.namespace.prefix_set result.now.items }
    {
        &self.namespace.prefix_set
    }

    /// Whether idle counters are deleted.
    pub fn delete_counters(&self) -> bool
        ensures { result ≡ self.now.deletions.counters }
    {
        self.deletions.counters
    }

    /// Whether idle timers are deleted.
    pub fn delete_timers(&self) -> bool
        ensures { result ≡ self.now.deletions.timers }
    {
        self.deletions.timers
    }

    /// Whether idle gauges are deleted.
    pub fn delete_gauges(&self) -> bool
        ensures { result ≡ self.now.deletions.gauges }
    {
        self.deletions.gauges
    }

    /// Whether idle sets are deleted.
    pub fn delete_sets(&self) -> bool
        ensures { result ≡ self.now.deletions.sets }
    {
        self.deletions.sets
    }

    /// The thresholds of timers.
    pub fn percent_threshold(&self) -> &[Micro]
        ensures { IsSetting AreThresholds self.now.server.percent_threshold (micros result.now) }
    {
        self.plan.thresholds.as_slice()
    }

    /// The bins of timers by parts of their names.
    pub fn histogram(&self) -> &[Classes]
        ensures { IsSetting AreHistograms self.now.lists.histogram (map classes_view result.now) }
    {
        self.plan.histograms.as_slice()
    }

    /// The names of the classes of timers' lines that are sent; with none, all are.
    pub fn calculated_timer_metrics(&self) -> &[Name]
        ensures { IsSetting AreClassNames self.now.rules.calculated_timer_metrics (name_bytes result.now) }
    {
        self.plan.calculated.as_slice()
    }

    /// Whether Graphite's names have their older form.
    pub fn legacy_namespace(&self) -> bool
        ensures { result ≡ self.now.namespace.legacy }
    {
        self.namespace.legacy
    }

    /// The host of Graphite.
    pub fn graphite_host(&self) -> &Name
        ensures { IsSetting IsHost self.now.addresses.graphite_host result.now.items }
    {
        &self.addresses.graphite_host
    }

    /// The port of Graphite.
    pub fn graphite_port(&self) -> u32
        ensures { IsSetting (IsWithin 1 65535) self.now.addresses.graphite_port result }
    {
        self.addresses.graphite_port
    }

    /// The prefix of all of Graphite's names.
    pub fn global_prefix(&self) -> &Name
        ensures { IsSetting IsPrefix self.now.namespace.global_prefix result.now.items }
    {
        &self.namespace.global_prefix
    }

    /// The prefix of the server's own metrics, which isn't empty.
    pub fn prefix_stats(&self) -> &Name
        ensures setting { IsSetting IsPrefix self.now.addresses.prefix_stats result.now.items }
        ensures some { 0 < length result.now.items }
    {
        &self.addresses.prefix_stats
    }

    /// What stands behind all of Graphite's names.
    pub fn global_suffix(&self) -> &Name
        ensures { IsSetting IsPrefix self.now.namespace.global_suffix result.now.items }
    {
        &self.namespace.global_suffix
    }

    /// Where packets are repeated to.
    pub fn repeater(&self) -> &[Target]
        ensures { IsSetting AreTargets self.now.lists.repeater (map target_view result.now) }
    {
        self.repeater.as_slice()
    }

    /// The servers behind the proxy.
    pub fn nodes(&self) -> &[Node]
        ensures { IsSetting AreNodes self.now.lists.nodes (map node_view result.now) }
    {
        self.nodes.as_slice()
    }

    /// The time between two checks of the nodes, in milliseconds.
    pub fn check_interval(&self) -> u32
        ensures { IsSetting (IsWithin 1 86400000) self.now.sizes.check_interval result }
    {
        self.sizes.check_interval
    }

    /// How many keys the proxy keeps the owners of.
    pub fn cache_size(&self) -> u32
        ensures { IsSetting (IsWithin 1 1000000) self.now.sizes.cache_size result }
    {
        self.sizes.cache_size
    }
}
