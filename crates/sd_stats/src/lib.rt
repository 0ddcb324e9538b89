//! The statistics of a timer's values, its thresholds and bins, and how many members of a set differ. No call takes memory.
//!
//! `sd_record` alone calls it, for the figures of a row. It sorts the caller's list in place, and knows no rows, shards or
//! flushes.
#![tactic(auto)]

mod bins;
mod figures;
mod members;
mod sums;
mod threshold_parts;
mod timer;

pub use figures::{PctStats, Whole};
pub use members::distinct;
pub use timer::TimerStats;
