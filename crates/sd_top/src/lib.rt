//! The top call: words, settings, and what they ask for.
//!
//! `statsd` calls it with the real objects, and `sd_cases_runs` with those in memory. The contract of its function `statsd` has
//! the accounting theorem, and the cause of each answer. It reads the settings, takes the memory, opens the objects, and has a
//! replay, a drill, a server or a proxy executed, in this order. Only a server and a proxy have threads. Once they are at work
//! it takes no memory, but for the caches of a proxy's rings. It knows no files and no sockets: all that it touches is of its
//! `World`, which `sd_opening` opens and reads.
#![tactic(auto)]

mod call;
mod drill;
mod ends;
mod proxy;
mod server;
mod server_end;

pub use call::statsd;
pub use sd_opening::{Part, Status, World, explain};
