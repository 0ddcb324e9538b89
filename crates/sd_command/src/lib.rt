//! Admin commands: what a line asks for is executed, and replied to.
//!
//! `sd_replay` calls `execute` for each admin line of a script. A server's sessions have `sd_session` in its place, whose
//! proofs use its lemmas. What a line does to shards and desk doesn't depend on the output. Its moment is given, and keys and
//! rows go into lists that the caller lends: no clock is read, and no memory taken.
#![tactic(auto)]

mod command;

pub use command::execute;
