//! Graphite's text of a record.
//!
//! `sd_delivery` has it written to the backend, and `sd_flush` into an outlet's buffer. It goes by the `Names` of the settings.
//! It connects to nothing, begins and ends no list, and takes no memory; where a write fails, a prefix of the text was written.
#![tactic(auto)]

mod form;
mod line;
mod path;
mod record;
mod row;
mod second;
mod tail;

pub use form::GraphiteText;
pub use record::write_record;
