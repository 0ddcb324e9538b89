//! Admin commands: what a line asks for, and the replies; and what shards and a desk counted, all together.
//!
//! `sd_command` has a script's lines read and replied to by it, `sd_session` those of a server's session, and `sd_port` those of a
//! proxy's; `sd_replay` and `sd_top` write the totals where a run ends. It executes nothing: what a reply tells, the caller lends.
//! It takes no memory, and writes to any `Sink`.
#![tactic(auto)]

mod command;
mod names;
mod reply;
mod reply_lines;
mod sums;
mod totals;
mod words;

pub use command::{AdminFault, Command, HealthWord, health_word};
pub use names::NameList;
pub use reply::{Reply, write_reply};
pub use reply_lines::end_line;
pub use totals::{
    TOTALS, Total, Totals, known_totals, push_total, totals_text, write_total, write_totals,
};
pub use words::{Word, first_word};
