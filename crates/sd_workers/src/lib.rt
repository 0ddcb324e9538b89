//! Workers that run side by side, each in a thread of its own.
//!
//! `sd_serve` runs the server's workers by it, and `sd_relay` those of a proxy. Each worker is run once, and all have ended when
//! a call returns. Where the machine gives no thread they run one after another, which no clause tells. It knows nothing of what
//! they do. What a worker holds while it runs is taken from the start
//! of a list, and goes back there.
#![tactic(auto)]

mod moving;
mod reports;
mod worker;

pub use moving::{datagram_room, put_first, put_run, take_first, take_run};
pub use reports::{Reports, ends_in};
pub use worker::{Worker, run_pair, run_workers};
