ghost use Rattle.sd_model_settings.specs.Table.{server, deletion_rules, addresses, namespace, entry_lists, sizes, flush_rules, transport};
ghost use Rattle.sd_model_settings.specs.Settings.{read};
ghost use Rattle.sd_config.specs.Answers.{Gives};
ghost use Rattle.sd_config.specs.Values.{section_of};
ghost use Rattle.sd_config.specs.Groups.{server_view, deletions_view, addresses_view, entry_lists_view, sizes_view, flush_rules_view, transport_view};
ghost use Rattle.sd_plan.specs.Names.{namespace_view};

use crate::backends::MOST_BACKENDS;
use crate::fault::ConfigFault;
use crate::section::Section;
use crate::values::TextRule;
use crate::{
    address_settings, deletion_settings, list_settings, namespace_settings, rule_settings,
    server_settings, size_settings, transport_settings,
};
use arrayvec::ArrayVec;
use sd_decimal::Micro;
use sd_outside::Name;
use sd_plan::{Classes, Namespace, Node, Target};

// What a group's settings are read as, in their order; the first fault decides.
macro_rules! read_group {
    (($section:ident, $group:ident) $($number:literal $field:ident $read_call:ident: $name:literal, $kind:ident($($range:expr),*), $allowed:expr;)*) => {{
        $(let $field = $section.$kind($name, $($range),*)?;)*
        Ok($group { $($field),* })
    }};
}

/// Ports, the interval between flushes in milliseconds, and the thresholds of timers.
#[derive(Debug, Drop)]
pub(crate) struct Server {
    pub(crate) port: u32,
    pub(crate) mgmt_port: u32,
    pub(crate) flush_interval: u32,
    pub(crate) percent_threshold: ArrayVec<Micro, 16>,
}

#[tactic(auto, unfolding(sd_model_settings::specs::Settings::read))]
pub(crate) fn server_in(top: &Section) -> Result<Server, ConfigFault>
    ensures { Gives server_view result (read server (section_of top.now)) }
{
    server_settings!(read_group(top, Server))
}

/// Which kinds of rows are deleted when idle.
#[derive(Debug, Drop)]
pub(crate) struct Deletions {
    pub(crate) idle_stats: bool,
    pub(crate) counters: bool,
    pub(crate) timers: bool,
    pub(crate) sets: bool,
    pub(crate) gauges: bool,
}

#[tactic(auto, unfolding(sd_model_settings::specs::Settings::read))]
pub(crate) fn deletions_in(top: &Section) -> Result<Deletions, ConfigFault>
    ensures { Gives deletions_view result (read deletion_rules (section_of top.now)) }
{
    deletion_settings!(read_group(top, Deletions))
}

/// The prefix of the server's own metrics, the addresses that it listens at, and where records go.
#[derive(Debug, Drop)]
pub(crate) struct Addresses {
    pub(crate) prefix_stats: Name,
    pub(crate) address: Name,
    pub(crate) mgmt_address: Name,
    pub(crate) backends: ArrayVec<Name, MOST_BACKENDS>,
    pub(crate) graphite_host: Name,
    pub(crate) graphite_port: u32,
}

#[tactic(auto, unfolding(sd_model_settings::specs::Settings::read))]
pub(crate) fn addresses_in(top: &Section) -> Result<Addresses, ConfigFault>
    ensures { Gives addresses_view result (read addresses (section_of top.now)) }
{
    address_settings!(read_group(top, Addresses))
}

#[tactic(auto, unfolding(sd_model_settings::specs::Settings::read))]
pub(crate) fn namespace_in(graphite: &Section) -> Result<Namespace, ConfigFault>
    ensures { Gives namespace_view result (read namespace (section_of graphite.now)) }
{
    namespace_settings!(read_group(graphite, Namespace))
}

/// The lists of tables.
#[derive(Debug, Drop)]
pub(crate) struct EntryLists {
    pub(crate) histogram: ArrayVec<Classes, 16>,
    pub(crate) repeater: ArrayVec<Target, 16>,
    pub(crate) nodes: ArrayVec<Node, 64>,
}

#[tactic(auto, unfolding(sd_model_settings::specs::Settings::read))]
pub(crate) fn entry_lists_in(top: &Section) -> Result<EntryLists, ConfigFault>
    ensures { Gives entry_lists_view result (read entry_lists (section_of top.now)) }
{
    list_settings!(read_group(top, EntryLists))
}

/// Times in milliseconds, and numbers of things.
#[derive(Debug, Drop)]
pub(crate) struct Sizes {
    pub(crate) check_interval: u32,
    pub(crate) cache_size: u32,
    pub(crate) shards: u32,
    pub(crate) rows: u32,
    pub(crate) entries: u32,
    pub(crate) receivers: u32,
    pub(crate) run_flushes: u32,
}

#[tactic(auto, unfolding(sd_model_settings::specs::Settings::read))]
pub(crate) fn sizes_in(top: &Section) -> Result<Sizes, ConfigFault>
    ensures { Gives sizes_view result (read sizes (section_of top.now)) }
{
    size_settings!(read_group(top, Sizes))
}

/// At which swap behind its last sample a gauge that goes when idle goes, and the names of the classes of timers' lines that
/// are chosen.
#[derive(Debug, Drop)]
pub(crate) struct FlushRules {
    pub(crate) gauges_max_ttl: u32,
    pub(crate) calculated_timer_metrics: ArrayVec<Name, 16>,
}

#[tactic(auto, unfolding(sd_model_settings::specs::Settings::read))]
pub(crate) fn flush_rules_in(top: &Section) -> Result<FlushRules, ConfigFault>
    ensures { Gives flush_rules_view result (read flush_rules (section_of top.now)) }
{
    rule_settings!(read_group(top, FlushRules))
}

/// How many texts may wait for each backend and of how many bytes each may be, the port of streams of lines, whether the
/// samples of counters and gauges are summed up as they come, the port of a proxy's admin lines, whether flushes are at multiples of
/// their interval, how many bytes of lines a proxy puts into a datagram, and how many bytes of room for datagrams each receiver asks
/// the system for; 0 is none.
#[derive(Debug, Drop)]
pub(crate) struct Transport {
    pub(crate) outlets: u32,
    pub(crate) outlet_bytes: u32,
    pub(crate) tcp_port: u32,
    pub(crate) sums_on_arrival: bool,
    pub(crate) proxy_mgmt_port: u32,
    pub(crate) align_flushes: bool,
    pub(crate) batch_bytes: u32,
    pub(crate) receive_buffer: u32,
}

#[tactic(auto, unfolding(sd_model_settings::specs::Settings::read))]
pub(crate) fn transport_in(top: &Section) -> Result<Transport, ConfigFault>
    ensures { Gives transport_view result (read transport (section_of top.now)) }
{
    transport_settings!(read_group(top, Transport))
}
