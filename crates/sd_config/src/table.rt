//! The table of settings in the order of their numbers, in eight groups. A group hands its lines to a macro, which makes something of
//! each: a reading, a name that is known, or a line of the reply to `config`. A line is
//! `NUMBER field read_call: "name", kind(range, default), "what is allowed";`. What an earlier line of its group read may be named in it.

use sd_outside::BACKENDS_IN_WORDS;

/// Ports, the interval between flushes in milliseconds, and the thresholds of timers.
#[macro_export]
macro_rules! server_settings {
    ($make:ident $with:tt) => {
        $make! { $with
            1 port port: "port", whole(1, 65_535, 8125), "a whole number from 1 to 65535";
            2 mgmt_port mgmt_port: "mgmt_port", whole(1, 65_535, 8126), "a whole number from 1 to 65535";
            3 flush_interval flush_interval: "flushInterval", whole(1, 86_400_000, 10_000),
                "milliseconds, a whole number from 1 to 86400000";
            4 percent_threshold percent_threshold: "percentThreshold", thresholds(90_000_000),
                "a threshold or a list of at most 16, no two equal, each from -100 to 100 and not 0; one with a fraction is a string, as \"99.9\"";
        }
    };
}

/// Which kinds of rows are deleted when idle.
#[macro_export]
macro_rules! deletion_settings {
    ($make:ident $with:tt) => {
        $make! { $with
            5 idle_stats delete_idle_stats: "deleteIdleStats", flag(false), "true or false";
            6 counters delete_counters: "deleteCounters", flag(idle_stats), "true or false";
            7 timers delete_timers: "deleteTimers", flag(idle_stats), "true or false";
            8 sets delete_sets: "deleteSets", flag(idle_stats), "true or false";
            9 gauges delete_gauges: "deleteGauges", flag(idle_stats), "true or false";
        }
    };
}

/// The prefix of the server's own metrics, the addresses that it listens at, and where records go.
#[macro_export]
macro_rules! address_settings {
    ($make:ident $with:tt) => {
        $make! { $with
            10 prefix_stats prefix_stats: "prefixStats", text(TextRule::FilledPrefix, "statsd"),
                "a string of 1 to 64 letters, digits, _, - and .";
            11 address address: "address", text(TextRule::Host, "0.0.0.0"),
                "a string of 1 to 64 bytes without spaces, a host or an address";
            12 mgmt_address mgmt_address: "mgmt_address", text(TextRule::Host, "0.0.0.0"),
                "a string of 1 to 64 bytes without spaces, a host or an address";
            13 backends backends: "backends", backends("graphite"),
                BACKENDS_IN_WORDS;
            14 graphite_host graphite_host: "graphiteHost", text(TextRule::Host, "127.0.0.1"),
                "a string of 1 to 64 bytes without spaces, a host or an address";
            15 graphite_port graphite_port: "graphitePort", whole(1, 65_535, 2003), "a whole number from 1 to 65535";
        }
    };
}

/// How Graphite's names are made; these stand in the file's table `graphite`.
#[macro_export]
macro_rules! namespace_settings {
    ($make:ident $with:tt) => {
        $make! { $with
            16 legacy legacy_namespace: "legacyNamespace", flag(true), "true or false";
            17 global_prefix global_prefix: "globalPrefix", text(TextRule::Prefix, "stats"),
                "a string of at most 64 letters, digits, _, - and .";
            18 prefix_counter prefix_counter: "prefixCounter", text(TextRule::Prefix, "counters"),
                "a string of at most 64 letters, digits, _, - and .";
            19 prefix_timer prefix_timer: "prefixTimer", text(TextRule::Prefix, "timers"),
                "a string of at most 64 letters, digits, _, - and .";
            20 prefix_gauge prefix_gauge: "prefixGauge", text(TextRule::Prefix, "gauges"),
                "a string of at most 64 letters, digits, _, - and .";
            21 prefix_set prefix_set: "prefixSet", text(TextRule::Prefix, "sets"),
                "a string of at most 64 letters, digits, _, - and .";
            22 global_suffix global_suffix: "globalSuffix", text(TextRule::Prefix, ""),
                "a string of at most 64 letters, digits, _, - and .";
        }
    };
}

/// The lists of tables.
#[macro_export]
macro_rules! list_settings {
    ($make:ident $with:tt) => {
        $make! { $with
            23 histogram histogram: "histogram", listed(),
                "a list of at most 16 tables { metric = \"..\", bins = [..] }; metric is a string of at most 255 letters, digits, _, - and .; bins has at most 64 ascending limits above 0, at most 10^10, the last of which may be \"inf\"; one with a fraction is a string, as \"0.5\"";
            24 repeater repeater: "repeater", listed(), "a list of at most 16 tables { host = \"..\", port = .. }";
            25 nodes nodes: "nodes", listed(),
                "a list of at most 64 tables { host = \"..\", port = .. }, each with adminport = .. where that is not 8126; a proxy needs one";
        }
    };
}

/// Times in milliseconds, and numbers of things.
#[macro_export]
macro_rules! size_settings {
    ($make:ident $with:tt) => {
        $make! { $with
            26 check_interval check_interval: "checkInterval", whole(1, 86_400_000, 10_000),
                "milliseconds, a whole number from 1 to 86400000";
            27 cache_size cache_size: "cacheSize", whole(1, 1_000_000, 10_000), "a whole number from 1 to 1000000";
            28 shards shards: "shards", whole(1, 16, 4), "a whole number from 1 to 16";
            29 rows rows: "rows", whole(1, 16_384, 4096), "a whole number from 1 to 16384";
            30 entries entries: "entries", share(1, 1_048_576, 2_097_152, shards, 65_536),
                "a whole number from 1 to 1048576, and times shards at most 2097152";
            31 receivers receivers: "receivers", whole(1, 16, 2),
                "a whole number from 1 to 16, and for a proxy times the number of nodes at most 256";
            32 run_flushes run_flushes: "runFlushes", whole(0, 1_000_000_000, 0),
                "a whole number from 0, which is no end, to 1000000000";
        }
    };
}

/// When a gauge that goes when idle goes, and which lines of timers are sent.
#[macro_export]
macro_rules! rule_settings {
    ($make:ident $with:tt) => {
        $make! { $with
            33 gauges_max_ttl gauges_max_ttl: "gaugesMaxTTL", whole(1, 1_000_000_000, 1),
                "a whole number from 1 to 1000000000";
            34 calculated_timer_metrics calculated_timer_metrics: "calculatedTimerMetrics", class_names(),
                "a list, each at most once, of \"std\", \"upper\", \"lower\", \"count\", \"count_ps\", \"sum\", \"sum_squares\", \"mean\", \"median\", \"histogram\", \"count_percent\", \"mean_percent\", \"upper_percent\", \"lower_percent\", \"sum_percent\", \"sum_squares_percent\"";
        }
    };
}

/// What waits for backends, what comes over TCP and is summed up as it comes, a proxy's admin lines and datagrams, when flushes are,
/// and the receivers' room.
#[macro_export]
macro_rules! transport_settings {
    ($make:ident $with:tt) => {
        $make! { $with
            35 outlets outlets: "outlets", whole(0, 64, 0),
                "a whole number from 0, which is no thread of its own, to 64";
            36 outlet_bytes outlet_bytes: "outletBytes", share(65_536, 16_777_216, 268_435_456, outlets, 4_194_304),
                "a whole number from 65536 to 16777216, and times outlets at most 268435456";
            37 tcp_port tcp_port: "tcp_port", whole(0, 65_535, 0), "a whole number from 0, which is none, to 65535";
            38 sums_on_arrival sums_on_arrival: "sumsOnArrival", flag(false), "true or false";
            39 proxy_mgmt_port proxy_mgmt_port: "proxy_mgmt_port", whole(0, 65_535, 0),
                "a whole number from 0, which is none, to 65535";
            40 align_flushes align_flushes: "alignFlushes", flag(false), "true or false";
            41 batch_bytes batch_bytes: "batchBytes", whole(0, 65_507, 0),
                "bytes, a whole number from 0, which is a datagram a line, to 65507";
            42 receive_buffer receive_buffer: "receiveBuffer", whole(0, 1_073_741_824, 0),
                "bytes, a whole number from 0, which asks for none, to 1073741824";
        }
    };
}

// Gathers the names of groups, one group after another, with what is allowed for each, behind what was gathered before.
macro_rules! gathered {
    (($finish:ident [$next:ident $($later:ident)*] $($so_far:tt)*) $($number:literal $field:ident $read_call:ident: $name:literal, $kind:ident $range:tt, $allowed:expr;)*) => {
        $next!(gathered($finish [$($later)*] $($so_far)* $(($name, $allowed))*))
    };
    (($finish:ident [] $($so_far:tt)*) $($number:literal $field:ident $read_call:ident: $name:literal, $kind:ident $range:tt, $allowed:expr;)*) => {
        $finish!($($so_far)* $(($name, $allowed))*)
    };
}

macro_rules! at_the_top {
    ($finish:ident) => {
        server_settings!(gathered($finish
            [deletion_settings address_settings list_settings size_settings rule_settings transport_settings]
            ("graphite", "a table, [graphite]")))
    };
}

macro_rules! names {
    ($(($name:literal, $allowed:expr))*) => { [$($name),*] };
}

macro_rules! allowed {
    ($(($name:literal, $allowed:expr))*) => { [$(Allowed { name: $name, text: $allowed }),*] };
}

macro_rules! allowed_inside_graphite {
    ($(($name:literal, $allowed:expr))*) => { [$(Allowed { name: concat!("graphite.", $name), text: $allowed }),*] };
}

/// The names at the top of a file.
pub(crate) const TOP: [&str; 36] = at_the_top!(names);

/// The names in the table `graphite`.
pub(crate) const GRAPHITE: [&str; 7] = namespace_settings!(gathered(names []));

/// In words what is allowed for what has a name.
pub(crate) struct Allowed {
    pub(crate) name: &'static str,
    pub(crate) text: &'static str,
}

/// What is allowed for each name at the top of a file.
pub(crate) const TOP_ALLOWED: [Allowed; 36] = at_the_top!(allowed);

/// What is allowed for each name in the table `graphite`, with the table's before it.
pub(crate) const GRAPHITE_ALLOWED: [Allowed; 7] =
    namespace_settings!(gathered(allowed_inside_graphite []));
