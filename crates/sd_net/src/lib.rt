//! The real objects of the server: receivers of datagrams, a beat, and who reads standard output, with the clock, log, doors and
//! peers of the crates below. They tell nothing of their content.
//!
//! `statsd` hands them to `sd_top`. Each counts its faults and turns as its trait asks; that the bytes are the right ones no
//! clause says. Receivers, beat and doors look at one `Stop`, and each wait has a limit. They know no samples and no settings.
#![tactic(auto)]

mod draining;
mod output;
mod threads;
mod tick_beat;
mod udp_receiver;

pub use output::{Output, Text};
pub use sd_doors::{DoorSizes, LongLines, SessionSink, SessionSource, Share, TcpDoor};
pub use sd_log::{Rounds, RunLog};
pub use sd_open::Sockets;
pub use sd_peers::{GraphiteLink, Hosts, TcpProbe, UdpWire};
pub use sd_timing::{Pace, Stop, SystemClock};
pub use tick_beat::TickBeat;
pub use udp_receiver::UdpReceiver;
