//! Settings: the file is read as TOML, and each setting by its kind, range and default; and the lines of the reply to `config`.
//!
//! `sd_opening` reads the file and calls `Settings::read`; `sd_replay` and the server's workers ask for the values in force, and
//! `sd_admin` writes the reply to `config`, and all its other replies, as texts that are made line by line. A file is accepted
//! just where the definition accepts it, and else its first fault is told with its name. Replies go to any `Sink`, and where a
//! write fails a prefix of the text was written. It opens no file. `Settings::read` takes memory for the document and gives it
//! back, and no other call takes any.
#![tactic(auto)]

mod allowed;
mod backends;
mod bins;
mod config_lines;
mod config_value;
mod entries;
mod fault;
mod fields;
mod groups;
mod known_names;
mod line_text;
mod lists;
mod names;
mod section;
mod settings;
mod table;
mod thresholds;
mod value_lines;
mod values;

pub use config_lines::{config_line, config_line_count, line_of, number_line};
pub use config_value::{ReplyLine, push_text};
pub use fault::ConfigFault;
pub use known_names::names_ascend;
pub use line_text::{LineText, write_lines};
pub use names::NamesOf;
pub use settings::Settings;
