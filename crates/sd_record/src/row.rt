ghost use Rattle.std.specs.Prelude.{◌≡◌, []};
ghost use Rattle.sd_model_record.specs.Record.{SetRow};
ghost use Rattle.sd_record.specs.Row.{row_view};

use arrayvec::ArrayVec;
use sd_decimal::{Limit, Micro, Sum};
use sd_key::Key;
use sd_stats::{PctStats, Whole};

/// The statistics of a timer's thresholds that take a value, in the order of the setting.
pub type Parts = ArrayVec<PctStats, 16>;

/// A bin: its upper limit, which it doesn't hold, and how many values it counts.
#[derive(Clone, Copy, Debug, Default, PartialEq, Eq)]
pub struct Bin {
    pub below: Limit,
    pub count: u64,
}

/// The bins of a timer, in the order of the entry that applies.
pub type Bins = ArrayVec<Bin, 64>;

/// A timer of a record. One without samples has no statistics of its values, no parts and no bins.
#[derive(Debug, Drop)]
pub struct TimerRow {
    /// What the samples weigh together: each 1 by its rate.
    pub count: Sum,
    pub count_ps: Sum,
    pub whole: Option<Whole>,
    pub parts: Parts,
    pub bins: Bins,
}

impl TimerRow {
    /// A timer to put others into: one without samples.
    pub(crate) fn new() -> TimerRow {
        TimerRow {
            count: Sum(0),
            count_ps: Sum(0),
            whole: None,
            parts: Parts::new(),
            bins: Bins::new(),
        }
    }
}

/// A row of a record with its values.
#[derive(Debug, Drop)]
pub enum Row {
    /// A counter: the weights of its samples added up, and that per second.
    Counter { key: Key, count: Sum, rate: Sum },
    /// A timer with its statistics.
    Timer { key: Key, timer: TimerRow },
    /// A gauge with its value.
    Gauge { key: Key, value: Micro },
    /// A set: how many of its members differ.
    Set { key: Key, count: u64 },
}

impl Row {
    /// A row to put others into: a set with no name and no members.
    pub fn new() -> Row
        ensures { row_view result ≡ SetRow [] 0 }
    {
        Row::Set {
            key: Key::of(b"").unwrap(),
            count: 0,
        }
    }
}
