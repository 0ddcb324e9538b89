//! Scripts: the records of a script, executed one after another on shards.
//!
//! `sd_top` calls `replay` for a script's file and for a drill. All memory is taken in `ReplayRoom::open`. It opens no object, starts
//! no thread, waits for no turn, and reads no clock: each moment stands in the script.
#![tactic(auto)]

mod fault;
mod flush;
mod room;
mod run;

pub use room::ReplayRoom;
pub use run::{ReplayEnd, replay};
