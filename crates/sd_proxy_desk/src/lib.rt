//! What a proxy's threads share: what was counted so far, and whether the proxy is said to be well; and the checker, which asks
//! all nodes how they are at each tick of a beat, and publishes the set of those that say that they are up.
//!
//! The desk stands behind a turn, and has one legal history of what those who share it did: `sd_proxy`'s receivers count each
//! datagram there and its reader of lines each read, the checker each check, and `sd_port`'s sessions ask for the facts and say
//! the health. `sd_relay` runs the checker in a thread beside the receivers; it waits for the beat and for each reply, routes no
//! line, and remembers nothing of a node from check to check. Each call waits for the turn. Only `open` takes memory.
#![tactic(auto)]

mod ask;
mod checked;
mod checker;
mod desk;
mod facts;
mod hub;
mod noted;
mod questions;
mod reply;
mod route;
mod telling;
mod totals;
mod value;

pub use ask::{ProxyAsk, ProxyReply};
pub use checked::{CheckEnd, Checked};
pub use checker::check;
pub use desk::{ProxyDesk, ProxySeat};
pub use facts::ProxyFacts;
pub use hub::{ProxyHub, ProxyPass};
pub use reply::says_up;
pub use route::Route;
pub use totals::ProxyTotals;
