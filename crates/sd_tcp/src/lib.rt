//! Lines of a stream of bytes that comes piece by piece: they are the same, however the stream is cut into reads.
//!
//! `sd_receive` reads the streams of a door through a `Cutter`, which `sd_serve` opens. Only `open` takes memory, for the longest
//! line. It knows no sockets and no samples: it is given bytes, and gives lines.
#![tactic(auto)]

mod cut;
mod cutter;
mod held;
mod newline;

pub use cut::Cut;
pub use cutter::Cutter;
