//! The definitions of a proxy's health checks: the history of the sets of nodes that are up, what looks at it answer, and what a
//! checker does. The functions have no code, and each states a law of the definitions.
//!
//! `sd_live` cites them for looks, `sd_proxy_desk` for checks, and `sd_proxy` and `sd_relay` for the theorem of a proxy; the
//! definitions of a call stand on them.
#![tactic(auto)]

mod checks;
mod looks;

pub use checks::failed_questions_are_faults;
pub use looks::all_nodes_are_up;
