//! The console's text of a record.
//!
//! `sd_delivery` has it written to the backend, and `sd_flush` into an outlet's buffer. It begins and ends no list, and takes no
//! memory; where a write fails, a prefix of the text was written.
#![tactic(auto)]

mod form;
mod line;
mod record;
mod row;

pub use form::ConsoleText;
pub use record::write_record;
