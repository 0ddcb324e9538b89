//! The definitions of text and numbers: words on lists, numbers in millionths, names and kinds of metrics,
//! datagrams and their pieces. `specs/` has them, one subject a file; the functions here have no code, and
//! each states a law of the definitions.
//!
//! They stand on no other definitions. Most others cite them, and so do the crates that read and write names, numbers and lines:
//! `sd_decimal`, `sd_key`, `sd_line`.
#![tactic(auto)]

mod names;
mod numbers;

pub use names::{clean_keys, clean_names, clean_twice, hash_vectors, matches_families};
pub use numbers::{
    rounding_is_exact, rounding_is_monotone, rounding_is_near, rounding_is_symmetric,
};
