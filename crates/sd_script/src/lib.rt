//! The records of a script, read one after another, each with its flaw, if it has one; and the made script that a drill reads.
//!
//! `sd_replay` executes what it reads, and `sd_top` gives it a `Drill` as the script of `drill N`: that text goes by the number of
//! packets alone, is made as it is read, and no read of it fails. Only `Reader::open` takes memory. The source is asked only
//! while the bytes at hand don't decide what stands next. What a datagram or an admin line says isn't read: its bytes are lent
//! as they came.
#![tactic(auto)]

mod ahead;
mod drill;
mod fault;
mod fields;
mod flaw;
mod head;
mod numbers;
mod reader;
mod record;
mod records;
mod text;

pub use drill::{Drill, MOST_PACKETS};
pub use fault::ScriptFault;
pub use flaw::Flaw;
pub use reader::{Item, Reader};
