//! The proxy: each line of a datagram, or of a stream, goes to the node that owns the key of its name.
//!
//! `route` says where a line goes; `proxy` takes the datagrams of a source and sends each line on the wire of its owner, those of one
//! datagram together as far as `Waiting::for_nodes` took room for them. `proxy_part` does the same among the nodes that were last
//! found up, and counts each datagram at the proxy's desk: `check` asks the nodes how they are, and publishes the set of those that are
//! up in an `UpCell`, where each receiver looks at it. `line_part` does so with the lines of the streams of a door, those that one read
//! ends together. `sd_relay` runs all side by side. Whether the pieces of a line are good isn't asked, and nothing is sent twice. No memory
//! is taken but when a cell, a desk, or the room of waiting lines or of a stream is opened, and what the ring's cache asks for, where a
//! refusal changes nothing else.
#![tactic(auto)]

mod forwarding;
mod line_reading;
mod lined;
mod lines;
mod looking;
mod proxied;
mod proxying;
mod routing;
mod sending;
mod stream_room;
mod streaming;
mod waiting;

pub use line_reading::line_part;
pub use lined::Lined;
pub use looking::proxy_part;
pub use proxied::Proxied;
pub use proxying::proxy;
pub use routing::route;
pub use sd_live::{UpCell, UpPass, UpPasses};
pub use sd_proxy_desk::{
    CheckEnd, Checked, ProxyDesk, ProxyFacts, ProxyHub, ProxyPass, ProxySeat, ProxyTotals, Route,
    check, says_up,
};
pub use stream_room::StreamRoom;
pub use waiting::Waiting;
