//! What all runs have: the types of their objects, what they take from the settings, and how long a flush's text is estimated to
//! be by these.
//!
//! `sd_replay`, `sd_serve`, `sd_opening` and `sd_top` use it, for replays, servers and proxies alike. It opens nothing, and takes no
//! memory.
#![tactic(auto)]

mod full_texts;
mod object_types;
mod settings;

pub use full_texts::full_text;
pub use object_types::{ObjectTypes, ObjectTypesOf};
pub use settings::{limits_of, names_backend, policy_of, targets_of};
