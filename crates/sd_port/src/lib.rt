//! A proxy's admin port: what a line asks for, the replies, and the sessions of its door.
//!
//! `sd_relay` runs `keep_port` in a thread. A line is answered from the desk and the set of nodes that the proxy's threads share, and a
//! session waits for its two ends and for the desk's turn. It takes no memory, opens no connection, and changes no setting.
#![tactic(auto)]

mod answerer;
mod command;
mod line;
mod node_lines;
mod port_keeper;
mod replies;
mod shared;

pub use answerer::PortAnswerer;
pub use command::PortCommand;
pub use port_keeper::keep_port;
pub use shared::PortShared;
