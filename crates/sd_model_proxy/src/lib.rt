//! The definitions of a proxy: where each line of a datagram goes, which lines go together in a packet, which sends the wires of the
//! nodes get, and what is counted. The functions have no code, and each states a law of the definitions.
//!
//! `sd_proxy` and `sd_relay` cite them, and so do the definitions of health checks and of a call. They speak of lines, and not of
//! pieces: whether a piece is good isn't asked.
#![tactic(auto)]

mod batches;
mod routes;
mod totals;

pub use batches::{nodes_get_their_lines, packets_hold_lines};
pub use routes::lines_go_to_owners;
pub use totals::{lines_have_one_fate, totals_add_up};
