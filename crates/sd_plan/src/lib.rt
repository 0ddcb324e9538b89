//! What flush records and Graphite's names go by, and the entries of the settings' lists.
//!
//! `sd_config` makes them of a settings file. `sd_record` works out records by them, `sd_graphite` names its lines, and `sd_ring`
//! takes its nodes. They stand below `sd_config`, so records and texts know no settings file. Thresholds, bins, classes and names
//! keep their ranges as invariants. All are of a fixed size: no call takes memory.
#![tactic(auto)]

mod calculated;
mod entries;
mod histograms;
mod names;
mod reckoning;
mod text;
mod thresholds;
mod timer_class;

pub use calculated::Calculated;
pub use entries::{Classes, Node, Target};
pub use histograms::Histograms;
pub use names::{Names, Namespace};
pub use reckoning::Reckoning;
pub use text::{copied, name_of};
pub use thresholds::Thresholds;
pub use timer_class::{TimerClass, is_class_name};
