//! Laws of the call: what a replay, a drill, a server and a proxy come to where nothing hinders them, and the cause of each answer.
//! The functions have no code.
//!
//! `sd_top` cites a lemma for how a drill ends.
#![tactic(auto)]

mod completeness;
mod serving;

pub use completeness::{
    blocked_calls_stop, drills_complete, faults_are_kept, unhindered_calls_complete,
    unhindered_proxies_relay, unhindered_replays_complete,
};
pub use serving::unhindered_servers_serve;
