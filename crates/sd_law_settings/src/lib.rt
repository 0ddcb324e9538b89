//! The law of accepted files: the ranges that all their values are in, with the lemmas that say so of each setting. The function
//! has no code.
//!
//! `sd_plan` and `sd_config` stand on it for what they hold, `sd_config` and `sd_record` for how long texts get.
#![tactic(auto)]

mod accepted;

pub use accepted::accepted_values;
