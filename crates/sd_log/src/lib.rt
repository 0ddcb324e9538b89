//! What a run tells of itself on standard error: its log, and how the rounds of a link went.
//!
//! `statsd` makes one `RunLog`, which `sd_top` is given as the sink of the events of `sd_event`. `sd_doors`, `sd_peers` and `sd_net`
//! tell it beside that why a call failed, whose session begins, and at which port datagrams come. Nobody waits for standard error,
//! and for another thread only for some milliseconds. Memory is taken to read the system's counts of lost datagrams, and given
//! back. What is told no clause says.
#![tactic(auto)]

mod log_text;
mod lost;
mod rounds;
mod run_log;

pub use log_text::{ShortText, address_text};
pub use rounds::Rounds;
pub use run_log::RunLog;
