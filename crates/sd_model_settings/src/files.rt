ghost use Rattle.std.specs.Prelude.{◌≡◌, ◌∷◌, [], pos, codes, Ok, Err, true, false};
ghost use Rattle.sd_model_text.specs.Numbers.{Below, Infinite};
ghost use Rattle.sd_model_settings.specs.Settings.{settings, Unknown, WrongKind, OutOfRange, NotToml, default_settings};
ghost use Rattle.sd_model_settings.specs.Table.{server, deletion_rules, addresses, namespace, sizes, flush_rules, transport};
ghost use Rattle.sd_model_settings.specs.ConfigText.{group_lines, value_lines};
ghost use Rattle.sd_model_settings.specs.Entries.{Histograms, Targets, Nodes};

/// What files set.
#[tactic(auto, unfolding(crate::proofs::OnLiterals::settings_on_literals))]
pub fn accepted_files()
    ensures empty { settings [] ≡ Ok default_settings }
    ensures the_default { settings (codes "shards = 4\n") ≡ Ok default_settings }
    ensures a_comment { settings (codes "# nothing\n") ≡ Ok default_settings }
    ensures a_decimal { settings (codes "percentThreshold = \"99.9\"\n")
        ≡ Ok (record default_settings {
          server = record default_settings.server { percent_threshold = pos 99900000 ∷ [] };
        }) }
    ensures a_deletion { settings (codes "deleteIdleStats = true\ndeleteGauges = false\n")
        ≡ Ok (record default_settings {
          deletions = record { idle_stats = true; counters = true; timers = true; sets = true; gauges = false };
        }) }
    ensures rules { settings (codes "gaugesMaxTTL = 2\ncalculatedTimerMetrics = ['count', 'median']\n")
        ≡ Ok (record default_settings {
          rules = record { gauges_max_ttl = 2; calculated_timer_metrics = codes "count" ∷ codes "median" ∷ [] };
        }) }
    ensures most_entries { settings (codes "entries = 1048576\nshards = 2\n")
        ≡ Ok (record default_settings {
          sizes = record default_settings.sizes { shards = 2; entries = 1048576 };
        }) }
    ensures transport { settings (codes "outlets = 2\noutletBytes = 65536\ntcp_port = 8127\n")
        ≡ Ok (record default_settings {
          transport = record default_settings.transport { outlets = 2; outlet_bytes = 65536; tcp_port = 8127 };
        }) }
    ensures sums { settings (codes "sumsOnArrival = true\n")
        ≡ Ok (record default_settings {
          transport = record default_settings.transport { sums_on_arrival = true };
        }) }
    ensures no_sums { settings (codes "sumsOnArrival = false\n") ≡ Ok default_settings }
    ensures most_room { settings (codes "receiveBuffer = 1073741824\n")
        ≡ Ok (record default_settings {
          transport = record default_settings.transport { receive_buffer = 1073741824 };
        }) }
    ensures no_room { settings (codes "receiveBuffer = 0\n") ≡ Ok default_settings }
    ensures batches { settings (codes "proxy_mgmt_port = 8128\nalignFlushes = true\nbatchBytes = 65507\n")
        ≡ Ok (record default_settings {
          transport = record default_settings.transport { proxy_mgmt_port = 8128; align_flushes = true; batch_bytes = 65507 };
        }) }
    ensures no_batches { settings (codes "proxy_mgmt_port = 0\nalignFlushes = false\nbatchBytes = 0\n") ≡ Ok default_settings }
    ensures most_outlets { settings (codes "outlets = 64\n")
        ≡ Ok (record default_settings {
          transport = record default_settings.transport { outlets = 64 };
        }) }
{}

/// The first faults of files.
#[tactic(auto, unfolding(crate::proofs::OnLiterals::settings_on_literals))]
pub fn refused_files()
    ensures a_float { settings (codes "percentThreshold = 99.9\n") ≡ Err (WrongKind (codes "percentThreshold")) }
    ensures other_letters { settings (codes "flushinterval = 5\n") ≡ Err (Unknown (codes "flushinterval")) }
    ensures too_many { settings (codes "shards = 17\n") ≡ Err (OutOfRange (codes "shards")) }
    ensures no_value { settings (codes "port = ") ≡ Err NotToml }
    ensures twice { settings (codes "port = 1\nport = 1\n") ≡ Err NotToml }
    ensures unknown_first { settings (codes "zz = 1\nport = 0\n") ≡ Err (Unknown (codes "zz")) }
    ensures inside { settings (codes "[graphite]\nport = 0\n") ≡ Err (Unknown (codes "graphite.port")) }
    ensures kind_first { settings (codes "percentThreshold = [0, true]\n") ≡ Err (WrongKind (codes "percentThreshold")) }
    ensures rounded_first { settings (codes "percentThreshold = [1, \"1.0000001\"]\n")
        ≡ Err (OutOfRange (codes "percentThreshold")) }
    ensures early_inf { settings (codes "histogram = [{metric = '', bins = ['inf', 1]}]\n")
        ≡ Err (WrongKind (codes "histogram")) }
    ensures too_many_entries { settings (codes "entries = 1048576\n") ≡ Err (OutOfRange (codes "entries")) }
    ensures no_class { settings (codes "calculatedTimerMetrics = ['foo']\n") ≡ Err (OutOfRange (codes "calculatedTimerMetrics")) }
    ensures class_twice { settings (codes "calculatedTimerMetrics = ['sum', 'sum']\n")
        ≡ Err (OutOfRange (codes "calculatedTimerMetrics")) }
    ensures no_list { settings (codes "calculatedTimerMetrics = 3\n") ≡ Err (WrongKind (codes "calculatedTimerMetrics")) }
    ensures too_many_outlets { settings (codes "outlets = 65\n") ≡ Err (OutOfRange (codes "outlets")) }
    ensures too_many_bytes { settings (codes "outlets = 17\noutletBytes = 16777216\ntcp_port = true\n")
        ≡ Err (OutOfRange (codes "outletBytes")) }
    ensures too_much_room { settings (codes "receiveBuffer = 1073741825\n") ≡ Err (OutOfRange (codes "receiveBuffer")) }
    ensures negative_room { settings (codes "receiveBuffer = -1\n") ≡ Err (OutOfRange (codes "receiveBuffer")) }
    ensures room_as_text { settings (codes "receiveBuffer = '65536'\n") ≡ Err (WrongKind (codes "receiveBuffer")) }
    ensures sums_as_number { settings (codes "sumsOnArrival = 1\n") ≡ Err (WrongKind (codes "sumsOnArrival")) }
    ensures sums_before_room { settings (codes "receiveBuffer = -1\nsumsOnArrival = 'true'\n")
        ≡ Err (WrongKind (codes "sumsOnArrival")) }
    ensures too_high_a_port { settings (codes "proxy_mgmt_port = 65536\n") ≡ Err (OutOfRange (codes "proxy_mgmt_port")) }
    ensures too_large_a_batch { settings (codes "batchBytes = 65508\n") ≡ Err (OutOfRange (codes "batchBytes")) }
    ensures alignment_as_number { settings (codes "alignFlushes = 1\n") ≡ Err (WrongKind (codes "alignFlushes")) }
    ensures batches_before_room { settings (codes "receiveBuffer = -1\nbatchBytes = '1'\n") ≡ Err (WrongKind (codes "batchBytes")) }
    ensures alignment_before_batches { settings (codes "batchBytes = -1\nalignFlushes = 0\n") ≡ Err (WrongKind (codes "alignFlushes")) }
    ensures proxy_port_before_alignment { settings (codes "alignFlushes = 0\nproxy_mgmt_port = -1\n")
        ≡ Err (OutOfRange (codes "proxy_mgmt_port")) }
    ensures sums_before_proxy_port { settings (codes "proxy_mgmt_port = -1\nsumsOnArrival = 0\n")
        ≡ Err (WrongKind (codes "sumsOnArrival")) }
    ensures port_before_sums { settings (codes "sumsOnArrival = 1\ntcp_port = 65536\n")
        ≡ Err (OutOfRange (codes "tcp_port")) }
    ensures port_before_room { settings (codes "receiveBuffer = true\ntcp_port = 65536\n")
        ≡ Err (OutOfRange (codes "tcp_port")) }
{}

/// The lines of the reply to `config` where nothing is set, and of entries.
#[tactic(auto, unfolding(crate::proofs::OnLiterals::digits_on_literals))]
pub fn config_lines_of_files()
    ensures server_defaults { group_lines [] server default_settings.server
        ≡ codes "port: 8125\n"
        ∷ codes "mgmt_port: 8126\n"
        ∷ codes "flushInterval: 10000\n"
        ∷ codes "percentThreshold: 90\n"
        ∷ [] }
    ensures deletion_defaults { group_lines [] deletion_rules default_settings.deletions
        ≡ codes "deleteIdleStats: false\n"
        ∷ codes "deleteCounters: false\n"
        ∷ codes "deleteTimers: false\n"
        ∷ codes "deleteSets: false\n"
        ∷ codes "deleteGauges: false\n"
        ∷ [] }
    ensures address_defaults { group_lines [] addresses default_settings.addresses
        ≡ codes "prefixStats: statsd\n"
        ∷ codes "address: 0.0.0.0\n"
        ∷ codes "mgmt_address: 0.0.0.0\n"
        ∷ codes "backends: graphite\n"
        ∷ codes "graphiteHost: 127.0.0.1\n"
        ∷ codes "graphitePort: 2003\n"
        ∷ [] }
    ensures namespace_defaults { group_lines (codes "graphite.") namespace default_settings.namespace
        ≡ codes "graphite.legacyNamespace: true\n"
        ∷ codes "graphite.globalPrefix: stats\n"
        ∷ codes "graphite.prefixCounter: counters\n"
        ∷ codes "graphite.prefixTimer: timers\n"
        ∷ codes "graphite.prefixGauge: gauges\n"
        ∷ codes "graphite.prefixSet: sets\n"
        ∷ codes "graphite.globalSuffix: \n"
        ∷ [] }
    ensures size_defaults { group_lines [] sizes default_settings.sizes
        ≡ codes "checkInterval: 10000\n"
        ∷ codes "cacheSize: 10000\n"
        ∷ codes "shards: 4\n"
        ∷ codes "rows: 4096\n"
        ∷ codes "entries: 65536\n"
        ∷ codes "receivers: 2\n"
        ∷ codes "runFlushes: 0\n"
        ∷ [] }
    ensures rule_defaults { group_lines [] flush_rules default_settings.rules
        ≡ codes "gaugesMaxTTL: 1\n"
        ∷ codes "calculatedTimerMetrics: \n"
        ∷ [] }
    ensures chosen_lines { group_lines [] flush_rules (record { gauges_max_ttl = 2; calculated_timer_metrics = codes "count" ∷ codes "upper_percent" ∷ [] })
        ≡ codes "gaugesMaxTTL: 2\n"
        ∷ codes "calculatedTimerMetrics: count,upper_percent\n"
        ∷ [] }
    ensures transport_defaults { group_lines [] transport default_settings.transport
        ≡ codes "outlets: 0\n"
        ∷ codes "outletBytes: 4194304\n"
        ∷ codes "tcp_port: 0\n"
        ∷ codes "sumsOnArrival: false\n"
        ∷ codes "proxy_mgmt_port: 0\n"
        ∷ codes "alignFlushes: false\n"
        ∷ codes "batchBytes: 0\n"
        ∷ codes "receiveBuffer: 0\n"
        ∷ [] }
    ensures a_histogram { value_lines (codes "histogram") Histograms (record { metric = codes "web"; limits = Below (pos 2500000) ∷ Infinite ∷ [] } ∷ [])
        ≡ codes "histogram: web 2.5,inf\n" ∷ [] }
    ensures no_limits { value_lines (codes "histogram") Histograms (record { metric = codes "web"; limits = [] } ∷ []) ≡ codes "histogram: web \n" ∷ [] }
    ensures a_target { value_lines (codes "repeater") Targets (record { host = codes "h"; port = 8125 } ∷ []) ≡ codes "repeater: h:8125\n" ∷ [] }
    ensures a_node { value_lines (codes "nodes") Nodes (record { host = codes "h"; port = 8125; adminport = 8126 } ∷ [])
        ≡ codes "nodes: h:8125:8126\n" ∷ [] }
{}
