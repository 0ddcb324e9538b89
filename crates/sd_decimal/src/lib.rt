//! Fixed-point numbers: whole millionths, read from text, weighed, rounded and written.
//!
//! `sd_line` and `sd_config` read numbers by it, `sd_epoch` weighs samples, `sd_stats` and `sd_record` work out figures, and all
//! texts write numbers by it. A result is rounded once, half away from zero, except a root, which is rounded down. It has no
//! floating point, and takes no memory.
#![tactic(auto)]

mod number;
mod reading;
mod rounding;
mod writing;

pub use number::{Limit, Line, Micro, NumberFault, Sum};
pub use reading::read;
pub use rounding::{per_second, ratio, root, weigh};
pub use writing::{write, write_whole};
