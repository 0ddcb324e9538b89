//! The definitions of a run of the server: what its callers did, what its objects tell of it, and where each sample is.
//!
//! `sd_serve`, `sd_top` and the definitions of a call cite them for the accounting theorem of a server. The functions have no code,
//! and each states a law of the definitions.
#![tactic(auto)]

mod outlets;

pub use outlets::texts_are_queued_or_skipped;
