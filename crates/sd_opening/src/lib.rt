//! The objects of a call, and how they are opened and read.
//!
//! `sd_top` calls it for each form of the words: it reads the words and the settings, and opens what a replay, a server or a proxy
//! uses, in the order of its parts. Each step that ends a call answers a `Status`. It also tells the log why a run didn't begin, and
//! that it did. Room for a settings file and its values is the only memory that it takes, beside what an object takes that is
//! opened. It waits for threads alone, two seconds at most, where `has_threads` looks whether the system starts them.
#![tactic(auto)]

mod opening;
mod proxy_opening;
mod server_opening;
mod settings;
mod status;
mod telling;
mod threads;
mod uses;
mod words;
mod world;

pub use opening::open_replay;
pub use proxy_opening::{check_fit, open_proxy};
pub use server_opening::{open_server, reads_streams};
pub use settings::read_settings;
pub use status::{Part, Status, explain};
pub use telling::{tell_end, tell_proxy, tell_server, tell_unfit, tell_unopened, tell_unread};
pub use threads::{has_threads, threads_of_proxy, threads_of_server};
pub use uses::use_named;
pub use words::{Form, form_of};
pub use world::{World, WorldOf};
