//! The definitions of the outside: what an object tells of its content, how it counts its faults and turns, where it was
//! opened, and what flushes do to a backend. The functions have no code, and each states a law of the definitions.
//!
//! They stand on no other definitions. The traits of `sd_outside` are stated by them, and all who work on objects outside cite
//! them: the texts of backends, `sd_replay`, the server's workers, the proxy and `sd_top`.
#![tactic(auto)]

mod deliveries;
mod outside;
mod turns;

pub use deliveries::no_fault_no_failure;
pub use outside::{prefixes_join, reads_join, whole_round, writes_join};
pub use turns::steps_join;
