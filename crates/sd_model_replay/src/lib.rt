//! The definitions of a replay: its settings, the script, what its records do, where each good sample is, what was
//! written, and how it ends. The functions have no code, and each states a law of the definitions.
//!
//! `sd_script`, `sd_script`, `sd_command` and `sd_replay` cite them for what they do, and `sd_top` and the definitions of a call
//! for the accounting theorem of a replay.
#![tactic(auto)]

mod made;

pub use made::made_records_are_legal;
