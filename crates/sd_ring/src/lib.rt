//! The ring: each key belongs to one of the nodes that are up, and a node that goes down or comes back moves no key
//! but its own.
//!
//! A node stands on the ring at 160 points, made of digests, and a key belongs to the node of the next point. The
//! points are taken by `Ring::open`; keys that were asked for are remembered, as many as the cache holds. Names that come again
//! and again are remembered besides, in a small table before the cache.
//!
//! `sd_relay` opens a ring for each receiver of a proxy, and `sd_proxy` asks it for the owner of each line's name. It sends
//! nothing and asks no node: the caller says which nodes are up. A key for which the cache has no memory is answered all the
//! same.
#![tactic(auto)]

mod homes;
mod point;
mod points;
mod recent;
mod ring;

pub use ring::Ring;
