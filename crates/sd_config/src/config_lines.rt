ghost use Rattle.std.specs.Prelude.{◌≡◌, ◌+◌, ◌≤◌, [], ◌∷◌, ◌++◌, length, map, slice_get, decimal, codes};
ghost use Rattle.std.specs.Option.{option_map};
ghost use Rattle.arrayvec.specs.ArrayVec.{array_vec_len};
ghost use Rattle.sd_law_settings.specs.Ranges.{IsClasses, AreLimits, AreHistograms};
ghost use Rattle.sd_model_settings.specs.ConfigText.{config_line, limit_text, with_commas, group_lines, first_lines, back_lines, config_lines};
ghost use Rattle.sd_model_settings.specs.Table.{server, deletion_rules, addresses, namespace, sizes, flush_rules, transport};
ghost use Rattle.sd_plan.specs.Entries.{limits_of, classes_view, target_view, node_view};

use crate::config_value::{ReplyLine, push_joined, push_text};
use crate::line_text::{LineText, write_lines};
use crate::{
    Settings, address_settings, deletion_settings, namespace_settings, rule_settings,
    server_settings, size_settings, transport_settings, value_lines,
};
use sd_decimal::{Limit, Line, write_whole};
use sd_outside::{Failed, Sink};
use sd_plan::{Classes, Node, Target};

// how many lines stand before those of entries, and behind them
const FIRST_LINES: usize = 22;

const BACK_LINES: usize = 17;

/// The line of a name and a value.
pub fn line_of(name: &[u8], value: &[u8]) -> ReplyLine
    requires name { length name.now ≤ 255 }
    requires value { length value.now ≤ 3800 }
    ensures { result.items ≡ config_line name.now value.now }
{
    let mut line = ReplyLine::new();
    push_text(name, &mut line);
    push_text(b": ", &mut line);
    push_text(value, &mut line);
    line.push(b'\n');
    line
}

/// The line of a name and a whole number.
pub fn number_line(name: &[u8], number: u64) -> ReplyLine
    requires { length name.now ≤ 255 }
    ensures { result.items ≡ config_line name.now (decimal number) }
{
    let mut value = Line::new();
    write_whole(u128::from(number), &mut value);
    line_of(name, value.as_slice())
}

// The line of the setting at a place of a group, whose first has the number `first`.
macro_rules! line_at {
    (($settings:ident, $place:ident, $first:literal, $prefix:literal) $($number:literal $field:ident $read_call:ident: $name:literal, $kind:ident $range:tt, $allowed:expr;)*) => {{
        $(if $place == $number - $first {
            return Some(value_lines::$kind(concat!($prefix, $name), $settings.$read_call()));
        })*
        None
    }};
}

/// The line of ports, the interval and thresholds at a place.
fn server_line(settings: &Settings, place: usize) -> Option<ReplyLine>
    ensures { option_map (λ l. l.items) result ≡ slice_get (group_lines [] server settings.now.server) place }
{
    server_settings!(line_at(settings, place, 1, ""))
}

/// The line of what is deleted when idle, at a place.
fn deletion_line(settings: &Settings, place: usize) -> Option<ReplyLine>
    ensures { option_map (λ l. l.items) result ≡ slice_get (group_lines [] deletion_rules settings.now.deletions) place }
{
    deletion_settings!(line_at(settings, place, 5, ""))
}

/// The line of an address or where records go, at a place.
fn address_line(settings: &Settings, place: usize) -> Option<ReplyLine>
    ensures { option_map (λ l. l.items) result ≡ slice_get (group_lines [] addresses settings.now.addresses) place }
{
    address_settings!(line_at(settings, place, 10, ""))
}

/// The line of how Graphite's names are made, at a place.
fn namespace_line(settings: &Settings, place: usize) -> Option<ReplyLine>
    ensures { option_map (λ l. l.items) result ≡ slice_get (group_lines (codes "graphite.") namespace settings.now.namespace) place }
{
    namespace_settings!(line_at(settings, place, 16, "graphite."))
}

/// The line of a time or a number of things, at a place.
fn size_line(settings: &Settings, place: usize) -> Option<ReplyLine>
    ensures { option_map (λ l. l.items) result ≡ slice_get (group_lines [] sizes settings.now.sizes) place }
{
    size_settings!(line_at(settings, place, 26, ""))
}

/// The line of when a gauge goes or which lines of timers are sent, at a place.
fn rule_line(settings: &Settings, place: usize) -> Option<ReplyLine>
    ensures { option_map (λ l. l.items) result ≡ slice_get (group_lines [] flush_rules settings.now.rules) place }
{
    rule_settings!(line_at(settings, place, 33, ""))
}

/// The line of outlets, of the port of streams, of sums on arrival or of the receivers' room, at a place.
fn transport_line(settings: &Settings, place: usize) -> Option<ReplyLine>
    ensures { option_map (λ l. l.items) result ≡ slice_get (group_lines [] transport settings.now.transport) place }
{
    transport_settings!(line_at(settings, place, 35, ""))
}

/// Appends limits joined by commas.
fn push_limits(limits: &[Limit], value: &mut ReplyLine)
    requires range { AreLimits (limits_of limits.now) }
    requires room { array_vec_len value.old ≤ 512 }
    ensures text { value.new.items
        ≡ value.old.items ++ with_commas (map limit_text (limits_of limits.now)) }
    ensures short { array_vec_len value.new ≤ array_vec_len value.old + 2688 }
{
    push_joined(limits, value);
}

/// The line of an entry of `histogram`.
fn histogram_line(classes: &Classes) -> ReplyLine
    requires { IsClasses (classes_view classes.now) }
    ensures { result.items ≡ config_line (codes "histogram") ((classes_view classes.now).metric ++ 32 ∷ with_commas (map limit_text (classes_view classes.now).limits)) }
{
    let mut value = ReplyLine::new();
    push_text(classes.metric.as_slice(), &mut value);
    value.push(b' ');
    push_limits(classes.limits.as_slice(), &mut value);
    line_of(b"histogram", value.as_slice())
}

/// Appends a colon and a port.
fn push_port(port: u16, value: &mut ReplyLine)
    requires { array_vec_len value.old ≤ 512 }
    ensures text { value.new.items ≡ value.old.items ++ 58 ∷ decimal port }
    ensures short { array_vec_len value.new ≤ array_vec_len value.old + 40 }
{
    let mut digits = Line::new();
    write_whole(u128::from(port), &mut digits);
    value.push(b':');
    push_text(digits.as_slice(), value);
}

/// The line of an entry of `repeater`.
fn repeater_line(target: &Target) -> ReplyLine
    ensures { result.items ≡ config_line (codes "repeater") ((target_view target.now).host ++ 58 ∷ decimal (target_view target.now).port) }
{
    let mut value = ReplyLine::new();
    push_text(target.host.as_slice(), &mut value);
    push_port(target.port, &mut value);
    line_of(b"repeater", value.as_slice())
}

/// The line of an entry of `nodes`.
fn node_line(node: &Node) -> ReplyLine
    ensures { result.items ≡ config_line (codes "nodes") ((node_view node.now).host ++ 58 ∷ decimal (node_view node.now).port ++ 58 ∷ decimal (node_view node.now).adminport) }
{
    let mut value = ReplyLine::new();
    push_text(node.host.as_slice(), &mut value);
    push_port(node.port, &mut value);
    push_port(node.adminport, &mut value);
    line_of(b"nodes", value.as_slice())
}

/// The line at a place before those of entries.
fn first_line(settings: &Settings, place: usize) -> Option<ReplyLine>
    ensures { option_map (λ l. l.items) result
        ≡ slice_get (first_lines settings.now) place }
{
    if place < 4 {
        server_line(settings, place)
    } else if place < 9 {
        deletion_line(settings, place - 4)
    } else if place < 15 {
        address_line(settings, place - 9)
    } else if place < 22 {
        namespace_line(settings, place - 15)
    } else {
        None
    }
}

/// The line at a place behind those of entries.
fn back_line(settings: &Settings, place: usize) -> Option<ReplyLine>
    ensures { option_map (λ l. l.items) result
        ≡ slice_get (back_lines settings.now) place }
{
    if place < 7 {
        size_line(settings, place)
    } else if place < 9 {
        rule_line(settings, place - 7)
    } else {
        transport_line(settings, place - 9)
    }
}

/// The line of the entry of `histogram` at a place.
fn histogram_at(histogram: &[Classes], place: usize) -> Option<ReplyLine>
    requires { AreHistograms (map classes_view histogram.now) }
    ensures { option_map (λ l. l.items) result
        ≡ slice_get (map (λ c. config_line (codes "histogram") (c.metric ++ 32 ∷ with_commas (map limit_text c.limits))) (map classes_view histogram.now)) place }
{
    match histogram.get(place) {
        Some(classes) => Some(histogram_line(classes)),
        None => None,
    }
}

/// The line of the entry of `repeater` at a place.
fn repeater_at(repeater: &[Target], place: usize) -> Option<ReplyLine>
    ensures { option_map (λ l. l.items) result
        ≡ slice_get (map (λ t. config_line (codes "repeater") (t.host ++ 58 ∷ decimal t.port)) (map target_view repeater.now)) place }
{
    match repeater.get(place) {
        Some(target) => Some(repeater_line(target)),
        None => None,
    }
}

/// The line of the entry of `nodes` at a place.
fn node_at(nodes: &[Node], place: usize) -> Option<ReplyLine>
    ensures { option_map (λ l. l.items) result
        ≡ slice_get (map (λ n. config_line (codes "nodes") (n.host ++ 58 ∷ decimal n.port ++ 58 ∷ decimal n.adminport)) (map node_view nodes.now)) place }
{
    match nodes.get(place) {
        Some(node) => Some(node_line(node)),
        None => None,
    }
}

/// How many lines the reply to `config` has.
pub fn config_line_count(settings: &Settings) -> usize
    ensures len { result ≡ length (config_lines settings.now) }
    ensures short { result ≤ 135 }
{
    let entries = settings.histogram().len() + settings.repeater().len() + settings.nodes().len();
    FIRST_LINES + entries + BACK_LINES
}

/// The line of the reply to `config` at a place, counted from 0, or none behind the last.
pub fn config_line(settings: &Settings, place: usize) -> Option<ReplyLine>
    ensures { option_map (λ l. l.items) result ≡ slice_get (config_lines settings.now) place }
{
    if place < FIRST_LINES {
        return first_line(settings, place);
    }
    let place = place - FIRST_LINES;
    let histogram = settings.histogram();
    if place < histogram.len() {
        return histogram_at(histogram, place);
    }
    let place = place - histogram.len();
    let repeater = settings.repeater();
    if place < repeater.len() {
        return repeater_at(repeater, place);
    }
    let place = place - repeater.len();
    let nodes = settings.nodes();
    if place < nodes.len() {
        return node_at(nodes, place);
    }
    back_line(settings, place - nodes.len())
}

impl Settings {
    ghost use Rattle.std.specs.Prelude.{OnOk, OnErr};
    ghost use Rattle.sd_model_outside.specs.Outside.{HasFailedBehind, given};
    ghost use Rattle.sd_config.specs.ConfigText.{config_text};

    /// Writes the lines of the reply to `config`, one after another. No memory is taken.
    ///
    /// # Errors
    ///
    /// `Failed` where the sink failed. Then a prefix of the text was written.
    pub fn config_text<K: Sink>(&self, sink: &mut K) -> Result<(), Failed>
        ensures ok { OnOk result (K.seen sink.new ≡ given (config_text self.now) (K.seen sink.old)) }
        ensures failed { OnErr result (HasFailedBehind (config_text self.now) (K.seen sink.old) (K.seen sink.new)) }
    {
        write_lines(self, sink)
    }
}

impl LineText for Settings {
    ghost lines = { config_lines };

    fn line_count(&self) -> usize {
        config_line_count(self)
    }

    fn line(&self, place: usize) -> Option<ReplyLine> {
        config_line(self, place)
    }
}
