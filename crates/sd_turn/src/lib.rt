//! A value behind a turn, with one history of all changes that contracts alone see.
//!
//! `sd_pool` puts each shard behind one, and `sd_shared_desk` the desk. Below lies a table of seats: what a seat knows, the rule of
//! the value, its steps, and how a caller waits. Who finds the turn taken tries a while, and then sleeps until it is woken; the
//! change itself waits for nobody. That a caller comes to its turn, and in which order callers do, no clause says. Only `open` takes
//! memory: the history has no bytes.
#![tactic(auto)]

mod behind;
mod change;
mod history;
mod plain_seat;
mod stepped;
mod turn;
mod turn_seat;
mod turn_table;
mod view;

pub use change::Change;
pub use stepped::Stepped;
pub use turn::Turn;
pub use turn_seat::TurnSeat;
