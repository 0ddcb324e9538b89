//! The nodes of a proxy that are up: one checker publishes sets of them in a cell, and receivers look at the last one. What each
//! has seen is a beginning of one history, and the places of one receiver's looks in it never fall.
//!
//! `sd_proxy_desk` publishes, `sd_proxy` looks, and `sd_relay` opens the cell and closes it. Only `open` takes memory, and the other
//! calls wait only while a write is under way. It asks no node.
#![tactic(auto)]

mod pass;
mod rule;
mod up_cell;

pub use pass::{UpPass, UpPasses};
pub use up_cell::UpCell;
