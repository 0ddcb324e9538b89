//! The objects outside in memory, for programs of cases.
//!
//! They meet the traits of `sd_outside`, take their room in `open`, and fail at the calls that they are told to, and where there is no
//! room. The program has none of them.
#![tactic(auto)]

mod byte_store;
mod calls;
mod mem_backend;
mod mem_beat;
mod mem_clock;
mod mem_datagrams;
mod mem_door;
mod mem_object;
mod mem_probe;
mod mem_sink;
mod mem_source;
mod mem_wire;
mod round_store;

pub use mem_backend::MemBackend;
pub use mem_beat::MemBeat;
pub use mem_clock::MemClock;
pub use mem_datagrams::MemDatagrams;
pub use mem_door::MemDoor;
pub use mem_object::{Content, MemObject};
pub use mem_probe::{MemProbe, Question};
pub use mem_sink::MemSink;
pub use mem_source::MemSource;
pub use mem_wire::MemWire;
