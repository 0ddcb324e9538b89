//! The definitions of a call: its words, what it answers and why. The function has no code, and states a law of the
//! definitions.
//!
//! `sd_opening` and `sd_top` cite them, for the contract of the program's call, and `sd_law_call` for what calls come to. They
//! stand over the definitions of replays, servers and proxies, and no other definitions stand on them.
#![tactic(auto)]

mod completeness;

pub use completeness::drill_words_are_decimal;
