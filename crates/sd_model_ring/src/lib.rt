//! The definitions of the ring: the points of nodes, the number of a key, and the node that owns it. `specs/` has
//! them; the functions here have no code, and each states a law of the definitions.
//!
//! `sd_ring` cites them for the owner of a key, and so do the definitions of a proxy and of its health checks.
#![tactic(auto)]

mod ring;

pub use ring::{key_vectors, keys_stay, other_bits_are_free, owners_are_up};
