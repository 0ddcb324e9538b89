//! The definitions of settings: what a value of the file is read as, the names that are known, the table of
//! settings with their ranges and defaults, and the order of faults. `specs/` has them, one subject a file; the
//! functions here have no code, and each states a law of the definitions.
//!
//! `sd_config` cites them for what a file is read as, and `sd_config` for how settings are told. Records, the ring, servers
//! and the proxy have their settings from here.
#![tactic(auto)]

mod files;

pub use files::{accepted_files, config_lines_of_files, refused_files};
