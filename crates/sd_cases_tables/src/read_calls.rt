use sd_case::{Answer, Refusal};
use sd_config::Settings;
use sd_decimal::{Limit, Micro};
use sd_outside::Name;
use sd_plan::{Classes, Names, Node, Target};

/// The read calls in the order of the settings.
pub(crate) const CALLS: [&str; 42] = [
    "port",
    "mgmt_port",
    "flush_interval",
    "percent_threshold",
    "delete_idle_stats",
    "delete_counters",
    "delete_timers",
    "delete_sets",
    "delete_gauges",
    "prefix_stats",
    "address",
    "mgmt_address",
    "backends",
    "graphite_host",
    "graphite_port",
    "legacy_namespace",
    "global_prefix",
    "prefix_counter",
    "prefix_timer",
    "prefix_gauge",
    "prefix_set",
    "global_suffix",
    "histogram",
    "repeater",
    "nodes",
    "check_interval",
    "cache_size",
    "shards",
    "rows",
    "entries",
    "receivers",
    "run_flushes",
    "gauges_max_ttl",
    "calculated_timer_metrics",
    "outlets",
    "outlet_bytes",
    "tcp_port",
    "sums_on_arrival",
    "proxy_mgmt_port",
    "align_flushes",
    "batch_bytes",
    "receive_buffer",
];

/// Appends what a read call answers.
pub(crate) fn show_value(settings: &Settings, call: &str, out: &mut Answer) -> Result<(), Refusal> {
    if let Some(number) = number_of(settings, call) {
        out.number(i128::from(number));
    } else if let Some(flag) = flag_of(settings, call) {
        out.yes_or_no(flag);
    } else if let Some(name) = name_of(settings, call) {
        out.bytes(name.as_slice());
    } else {
        return show_list(settings, call, out);
    }
    Ok(())
}

/// What a read call of a number answers.
fn number_of(settings: &Settings, call: &str) -> Option<u32> {
    match call {
        "port" => Some(settings.port()),
        "mgmt_port" => Some(settings.mgmt_port()),
        "flush_interval" => Some(settings.flush_interval()),
        "graphite_port" => Some(settings.graphite_port()),
        "check_interval" => Some(settings.check_interval()),
        "cache_size" => Some(settings.cache_size()),
        "shards" => Some(settings.shards()),
        "rows" => Some(settings.rows()),
        "entries" => Some(settings.entries()),
        "receivers" => Some(settings.receivers()),
        "run_flushes" => Some(settings.run_flushes()),
        "gauges_max_ttl" => Some(settings.gauges_max_ttl()),
        "outlets" => Some(settings.outlets()),
        "outlet_bytes" => Some(settings.outlet_bytes()),
        "tcp_port" => Some(settings.tcp_port()),
        "proxy_mgmt_port" => Some(settings.proxy_mgmt_port()),
        "batch_bytes" => Some(settings.batch_bytes()),
        "receive_buffer" => Some(settings.receive_buffer()),
        _ => None,
    }
}

/// What a read call of a boolean answers.
fn flag_of(settings: &Settings, call: &str) -> Option<bool> {
    match call {
        "delete_idle_stats" => Some(settings.delete_idle_stats()),
        "delete_counters" => Some(settings.delete_counters()),
        "delete_timers" => Some(settings.delete_timers()),
        "delete_sets" => Some(settings.delete_sets()),
        "delete_gauges" => Some(settings.delete_gauges()),
        "legacy_namespace" => Some(settings.legacy_namespace()),
        "sums_on_arrival" => Some(settings.sums_on_arrival()),
        "align_flushes" => Some(settings.align_flushes()),
        _ => None,
    }
}

/// What a read call of a text answers.
fn name_of<'a>(settings: &'a Settings, call: &str) -> Option<&'a Name> {
    match call {
        "prefix_stats" => Some(settings.prefix_stats()),
        "address" => Some(settings.address()),
        "mgmt_address" => Some(settings.mgmt_address()),
        "graphite_host" => Some(settings.graphite_host()),
        "global_prefix" => Some(settings.global_prefix()),
        "prefix_counter" => Some(settings.prefix_counter()),
        "prefix_timer" => Some(settings.prefix_timer()),
        "prefix_gauge" => Some(settings.prefix_gauge()),
        "prefix_set" => Some(settings.prefix_set()),
        "global_suffix" => Some(settings.global_suffix()),
        _ => None,
    }
}

/// Appends what a read call of a list answers.
fn show_list(settings: &Settings, call: &str, out: &mut Answer) -> Result<(), Refusal> {
    match call {
        "percent_threshold" => show_thresholds(settings.percent_threshold(), out),
        "backends" => show_texts(settings.backends(), out),
        "calculated_timer_metrics" => show_texts(settings.calculated_timer_metrics(), out),
        "histogram" => show_histogram(settings.histogram(), out),
        "repeater" => show_repeater(settings.repeater(), out),
        "nodes" => show_nodes(settings.nodes(), out),
        _ => return Err(Refusal::UnknownCall),
    }
    Ok(())
}

/// Appends `none` for a list that is empty.
fn show_none(is_empty: bool, out: &mut Answer) {
    if is_empty {
        out.text("none");
    }
}

/// Appends a comma, but before the first of a list.
fn show_comma(place: usize, out: &mut Answer) {
    if place > 0 {
        out.text(",");
    }
}

/// Appends millionths.
fn show_micro(micro: Micro, out: &mut Answer) {
    let Micro(millionths) = micro;
    out.number(i128::from(millionths));
}

/// Appends a limit in millionths, or `inf`.
fn show_limit(limit: Limit, out: &mut Answer) {
    match limit {
        Limit::Below(number) => show_micro(number, out),
        Limit::Infinite => out.text("inf"),
    }
}

/// Appends thresholds, parted by commas.
pub(crate) fn show_thresholds(thresholds: &[Micro], out: &mut Answer) {
    show_none(thresholds.is_empty(), out);
    for (place, threshold) in thresholds.iter().enumerate() {
        show_comma(place, out);
        show_micro(*threshold, out);
    }
}

/// Appends texts, parted by commas.
pub(crate) fn show_texts(texts: &[Name], out: &mut Answer) {
    show_none(texts.is_empty(), out);
    for (place, text) in texts.iter().enumerate() {
        show_comma(place, out);
        out.bytes(text.as_slice());
    }
}

/// Appends entries of `histogram`, each as `METRIC(LIMITS)`.
pub(crate) fn show_histogram(histogram: &[Classes], out: &mut Answer) {
    show_none(histogram.is_empty(), out);
    for (place, classes) in histogram.iter().enumerate() {
        show_comma(place, out);
        out.bytes(classes.metric.as_slice());
        out.text("(");
        for (place, limit) in classes.limits.as_slice().iter().enumerate() {
            show_comma(place, out);
            show_limit(*limit, out);
        }
        out.text(")");
    }
}

/// Appends entries of `repeater`, each as `HOST:PORT`.
fn show_repeater(targets: &[Target], out: &mut Answer) {
    show_none(targets.is_empty(), out);
    for (place, target) in targets.iter().enumerate() {
        show_comma(place, out);
        out.bytes(target.host.as_slice());
        out.text(":");
        out.number(i128::from(target.port));
    }
}

/// Appends entries of `nodes`, each as `HOST:PORT:ADMINPORT`.
fn show_nodes(nodes: &[Node], out: &mut Answer) {
    show_none(nodes.is_empty(), out);
    for (place, node) in nodes.iter().enumerate() {
        show_comma(place, out);
        out.bytes(node.host.as_slice());
        out.text(":");
        out.number(i128::from(node.port));
        out.text(":");
        out.number(i128::from(node.adminport));
    }
}

/// Appends what Graphite's names are made of.
pub(crate) fn show_names(names: &Names, out: &mut Answer) {
    let namespace = names.namespace();
    out.yes_or_no(namespace.legacy);
    for name in [
        &namespace.global_prefix,
        &namespace.prefix_counter,
        &namespace.prefix_timer,
        &namespace.prefix_gauge,
        &namespace.prefix_set,
        &namespace.global_suffix,
        names.prefix_stats(),
    ] {
        out.text(" ");
        out.bytes(name.as_slice());
    }
}
