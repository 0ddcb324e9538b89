//! Sockets that the standard library doesn't make: several for datagrams at one address, each with a receive buffer that was
//! asked for, and those that were handed over by what started the process, as systemd does.
//!
//! `sd_open` opens them. This crate alone has `unsafe` code: calls of the C library, each of which requires of its arguments
//! what the library does, and the taking of descriptors that such a call has just made. What the system does with a socket no
//! clause says.
#![tactic(auto)]

mod call;
mod datagrams;
mod handed_over;
mod offered;
mod options;
mod ready;

pub use datagrams::SharedAddress;
pub use handed_over::HandedOver;
pub use options::{ask_receive_buffer, receive_buffer};
pub use ready::{most_of_output, takes_errors, waits_for_output};
