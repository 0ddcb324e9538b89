//! The flusher: at each tick of a beat it makes a round, which swaps the shards and gives the record of their tables to a delivery:
//! to the backends themselves, or to their outlets.
//!
//! `sd_serve` runs it in a thread, and has it make the last round. Only `Tables::open` takes memory. It has no turn while texts
//! are given, so samples may be taken meanwhile, and over outlets it waits for no backend. It reads no clock: a round's second is
//! given.
#![tactic(auto)]

mod flushed;
mod flusher;
mod post;
mod record_form;
mod rounds;
mod swapping;
mod tables;

pub use flushed::Flushed;
pub use flusher::flush_all;
pub use post::FlusherPost;
pub use record_form::RecordForm;
pub use rounds::round;
pub use tables::Tables;
