//! The definitions of a flush, of sends and of admin commands: the record of a flush, what the server counts of itself, the
//! texts that backends get, what sends do to wires, what an admin's line asks for, and the replies. The functions have no
//! code, and each states a law of the definitions.
//!
//! `sd_desk`, `sd_record`, `sd_graphite`, `sd_console` and `sd_admin` cite them for what they do; `sd_replay`, the server's
//! workers, the proxy and the definitions of replays, servers and proxies for what it comes to.
#![tactic(auto)]

mod admin;
mod texts;

pub use admin::sets_are_not_shown;
pub use texts::empty_lists_send_all;
