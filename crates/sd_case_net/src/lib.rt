//! What the programs of cases over sockets share: addresses of this machine, clients, and the lines that they print.
#![tactic(auto)]

mod clients;
mod common;

pub use clients::{client_of, show_next};
pub use common::{
    SIZES, datagrams_at, datagrams_here, here, host_at, no_sockets, opening_text, room,
    socket_here, step, stop_name, stuck,
};
