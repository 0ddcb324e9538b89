//! The doors over TCP: the sessions that their clients ask, and what these are told.
//!
//! `statsd` hands them to `sd_top` by `sd_net`: one for admin lines, and one for lines of samples. Each counts its faults and turns
//! as its trait asks; that the bytes are the right ones no clause says. What is decided of clients is in `sd_edge`. A door takes the
//! room of its clients where it is opened, and more for what they don't take of what they are told. It looks at a `Stop`, and each
//! wait has a limit. It knows no samples and no settings.
#![tactic(auto)]

mod client;
mod clients;
mod door_sizes;
mod hall;
mod look;
mod session_sink;
mod session_source;
mod tcp_door;

pub use door_sizes::{DoorSizes, Share};
pub use sd_edge::LongLines;
pub use session_sink::SessionSink;
pub use session_source::SessionSource;
pub use tcp_door::TcpDoor;
