//! The events that a server and a proxy tell of themselves, each by one function over the kit's `log`.
//!
//! An event is one word, and what is told with it is a list of keys and values. Who executes what befalls it calls the function
//! where it happens, through the runtime that it was given; how often an event is told, and in which form, is for the sink.
//! Values are numbers, words, or bytes that are shown escaped, so that each is printable text. No call takes memory, waits or
//! can fail, and no clause speaks of what is told.
#![tactic(auto)]

mod fields;
mod incidents;
mod links;
mod runs;
mod samples;

pub use incidents::{client_let_go, deleted, flush_is_late, health_set};
pub use links::{
    HostPort, Link, link_down, link_up, node_down, node_up, outlets_small, text_skipped,
};
pub use runs::{
    Places, ProxyParts, ServerParts, SettingRefused, proxy_started, refused, refused_setting,
    refused_toml, refused_with, server_started, stopped,
};
pub use samples::{Full, bad_line, samples_dropped};
