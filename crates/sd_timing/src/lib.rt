//! What the real objects share of time: the clocks' moments, how far flushes are apart, whether to stop, what is left of a delivery,
//! and how often an object was asked.
//!
//! `sd_log`, `sd_doors`, `sd_peers` and `sd_net` go by it, and `statsd` makes one `Pace` and one `Stop` for all of them. Times are
//! milliseconds of a clock that never goes back, unless they are called Unix seconds. No call takes memory or waits. That a clock
//! shows the time no clause says, and it knows no socket.
#![tactic(auto)]

mod moments;
mod pace;
mod stop;
mod system_clock;
mod turns;
mod waiting;

pub use moments::{millis, now};
pub use pace::Pace;
pub use stop::Stop;
pub use system_clock::SystemClock;
pub use turns::take_turn;
pub use waiting::{Waiting, slice};
