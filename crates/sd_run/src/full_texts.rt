use sd_config::Settings;
use sd_outside::{BackendKind, Name};
use sd_plan::{Calculated, TimerClass};

/// How many bytes a line of Graphite's text is estimated to have beside what stands before a key and behind a path: 30 of the key, 8 of
/// a figure's name and the point before it, 7 of the number, 10 of the second, two spaces and a newline.
const GRAPHITE_LINE: u64 = 58;

/// The same of a line of the console's text, with its first word.
const CONSOLE_LINE: u64 = 55;

/// How many lines a counter has, and a timer without samples: the most of a row of which no sample was kept.
const IDLE_LINES: u64 = 2;

/// The figures of all values of a timer.
const WHOLE: [TimerClass; 9] = [
    TimerClass::Std,
    TimerClass::Upper,
    TimerClass::Lower,
    TimerClass::Count,
    TimerClass::CountPs,
    TimerClass::Sum,
    TimerClass::SumSquares,
    TimerClass::Mean,
    TimerClass::Median,
];

/// The figures of what a threshold takes, without its edge.
const OF_PART: [TimerClass; 4] = [
    TimerClass::CountPercent,
    TimerClass::MeanPercent,
    TimerClass::SumPercent,
    TimerClass::SumSquaresPercent,
];

/// How many of some classes are sent.
fn sent(calculated: &Calculated, classes: &[TimerClass]) -> u64 {
    let mut count = 0u64;
    for &class in classes {
        if calculated.sends(class) {
            count = count.saturating_add(1);
        }
    }
    count
}

/// How many bins a timer has at most.
fn most_bins(settings: &Settings) -> u64 {
    let mut most = 0;
    for classes in settings.histogram() {
        most = most.max(classes.limits.len() as u64);
    }
    most
}

/// How many lines a timer with samples has at most.
fn timer_lines(settings: &Settings) -> u64 {
    let calculated = &settings.plan().calculated;
    let has_edges = calculated.sends(TimerClass::UpperPercent)
        || calculated.sends(TimerClass::LowerPercent);
    let of_part = sent(calculated, &OF_PART).saturating_add(u64::from(has_edges));
    let parts = of_part.saturating_mul(settings.percent_threshold().len() as u64);
    let bins = if calculated.sends(TimerClass::Histogram) {
        most_bins(settings)
    } else {
        0
    };
    sent(calculated, &WHOLE)
        .saturating_add(parts)
        .saturating_add(bins)
}

/// How many lines the rows of full tables have at most: each is a timer, as long as there are samples for them.
fn full_lines(settings: &Settings) -> u64 {
    let rows = u64::from(settings.rows());
    let timers = rows.min(u64::from(settings.entries()));
    let of_timers = timers.saturating_mul(timer_lines(settings).max(IDLE_LINES));
    let of_others = rows.saturating_sub(timers).saturating_mul(IDLE_LINES);
    u64::from(settings.shards()).saturating_mul(of_timers.saturating_add(of_others))
}

/// How many bytes a part of a path has, with the point that joins it to the others.
fn dotted(part: &Name) -> u64 {
    match part.as_slice() {
        [] => 0,
        bytes => (bytes.len() as u64).saturating_add(1),
    }
}

/// How many bytes stand before a key in Graphite's text at most.
fn path_prefix(settings: &Settings) -> u64 {
    if settings.legacy_namespace() {
        return b"stats.timers.".len() as u64;
    }
    let prefix = dotted(settings.prefix_timer()).max(dotted(settings.prefix_counter()));
    dotted(settings.global_prefix()).saturating_add(prefix)
}

/// How many bytes Graphite's text of a flush is estimated to have where all rows of all tables are in use, as the kind of row with the
/// most lines by the settings, with keys of 30 bytes and numbers of 7.
fn full_graphite_text(settings: &Settings) -> u64 {
    let line = GRAPHITE_LINE
        .saturating_add(path_prefix(settings))
        .saturating_add(dotted(settings.global_suffix()));
    full_lines(settings).saturating_mul(line)
}

/// The same of a text that has the keys as they came.
fn full_console_text(settings: &Settings) -> u64 {
    full_lines(settings).saturating_mul(CONSOLE_LINE)
}

/// The same of the text for a backend.
pub fn full_text(kind: BackendKind, settings: &Settings) -> u64 {
    match kind {
        BackendKind::Graphite => full_graphite_text(settings),
        _ => full_console_text(settings),
    }
}
