//! What is decided at the edge of the system, apart from what calls it: machines over plain values, each with a whole contract.
//!
//! `sd_doors`, `sd_peers` and `sd_log` tell it what a clock showed, which bytes came, and what came of a call, and do what it
//! answers. For the clients of a door: what each has sent and nobody has taken, what it was told and hasn't read, who is next,
//! and who is let go. For a link: what is left of a time, which address of a name is tried and when the name is looked up anew,
//! and which seconds flushes have. For a log: which failures and how many lines are told, and how a line is written. Times are
//! milliseconds of a clock that never goes back, unless they are called Unix seconds. It calls nothing.
#![tactic(auto)]

mod address_turns;
mod backoff;
mod flush_seconds;
mod guests;
mod kept;
mod limit;
mod line_buffer;
mod line_limit;
mod log_line;
mod outbox;
mod streak;
mod tick_times;
mod time_limit;

pub use address_turns::AddressTurns;
pub use backoff::Backoff;
pub use flush_seconds::FlushSeconds;
pub use guests::{Guest, Guests, Stage};
pub use kept::split_lines_keep_all_bytes;
pub use limit::left_of;
pub use line_buffer::{LineBuffer, LongLines, PIECE};
pub use line_limit::LineLimit;
pub use log_line::LogLine;
pub use outbox::Outbox;
pub use streak::Streak;
pub use tick_times::TickTimes;
pub use time_limit::{Delivery, TimeLimit, delivery_limit, text_limit};
