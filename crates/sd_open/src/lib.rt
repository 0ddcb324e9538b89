//! How real objects are opened at an address: its host and port, a socket there, and why an opening is refused.
//!
//! `sd_doors`, `sd_peers` and the receivers of `sd_net` open by it, and `statsd` makes one `Sockets` for all of them. A socket is one
//! that was handed over, or is bound: each receiver has one of its own, all at one address. To look up a host may wait for name
//! servers. It reads and sends nothing, and what the system does with a socket no clause says.
#![tactic(auto)]

mod place;
mod sockets;

pub use place::{datagrams_of, host_of, refusal};
pub use sockets::Sockets;
