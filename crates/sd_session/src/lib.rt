//! Admin sessions over a pool: their lines are executed by all shards and replied to, and the sessions of a door are served
//! one after another.
//!
//! `sd_serve` runs `doorkeep` in a thread. A session is held by `sd_talk`, to which it says by `Answerer` what a line comes to.
//! Only `AdminSpace::open` takes memory, and a line has room for 1,024 bytes. A session waits for its two ends, for the turns of
//! shards and for the desk's, and has no turn while it reads or writes. It opens and closes no connection: that is for the door
//! to do.
#![tactic(auto)]

mod answerer;
mod door_keeper;
mod execution;
mod line;
mod sessions;
mod shared;
mod space;
mod telling;
mod together;
mod visiting;

pub use door_keeper::doorkeep;
pub use sd_talk::SessionEnd;
pub use sessions::session;
pub use space::AdminSpace;
