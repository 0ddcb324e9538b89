//! What is sent to peers or asked of them: datagrams on a wire, texts to Graphite, questions to nodes, and the addresses of their
//! names.
//!
//! `statsd` hands wires, a link and a probe to `sd_top` by `sd_net`. Each counts its faults as its trait asks; that the bytes are the
//! right ones, or that a peer has them, no clause says. Names are looked up by threads of their own, which hold up no send. Each
//! wait for a name, a connection, a write or a reply has a limit. Rooms are taken by `Hosts::open`, where a link is opened, and
//! where a probe first asks; a look-up takes a little memory. They know no samples and no settings.
#![tactic(auto)]

mod conversation;
mod graphite_link;
mod hosts;
mod resolved;
mod tcp_probe;
mod text_room;
mod udp_wire;

pub use graphite_link::GraphiteLink;
pub use hosts::Hosts;
pub use tcp_probe::TcpProbe;
pub use udp_wire::UdpWire;
