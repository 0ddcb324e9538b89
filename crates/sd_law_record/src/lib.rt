//! Laws of records, of the account of histories and rounds, and of sends: the rows of tables that tell their journals are the
//! documented statistics, and each sample has one place. The functions have no code.
//!
//! `sd_replay`, `sd_serve` and `sd_top` cite its lemmas for the accounting theorem.
#![tactic(auto)]

mod records;
mod served;
mod wires;

pub use records::rows_are_documented;
pub use served::histories_account;
pub use wires::sends_are_packets;
