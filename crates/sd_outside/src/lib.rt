//! The outside: the traits of what the program reads, writes and opens.
//!
//! All who touch an object outside are generic over these traits, from `sd_repeater` and `sd_record` up to `sd_top`. `statsd`, `sd_net`,
//! `sd_doors` and `sd_peers` have the real objects, and the programs of cases use those in memory of `sd_memory`. A call that fails raises the
//! object's count of faults, up to 2^64 - 1. No file, socket or clock of the system is known here.
#![tactic(auto)]

mod address;
mod backend;
mod backends;
mod beat;
mod calls;
mod clock;
mod count_sink;
mod datagrams;
mod door;
mod gate;
mod opens;
mod probe;
mod sink;
mod source;
mod unfailing;
mod wire;

pub use address::{Address, Name};
pub use backend::{Back, Backend, Backs};
pub use backends::{
    BACKEND_COUNT, BACKENDS, BACKENDS_IN_WORDS, BackendKind, PerBackend, TryBackend, VisitBackend,
};
pub use beat::{Beat, Interval, Tick};
pub use calls::{fault, opening_fault};
pub use clock::Clock;
pub use count_sink::CountSink;
pub use datagrams::{Datagrams, Ended, Next};
pub use door::{Door, DoorEnd, Entry};
pub use gate::{Gate, NoGate};
pub use opens::{Failed, Faulty, OpenRefusal, Opens};
pub use probe::Probe;
pub use sink::{Sink, WriteFault, write_all};
pub use source::{Source, read_full};
pub use unfailing::Unfailing;
pub use wire::Wire;
