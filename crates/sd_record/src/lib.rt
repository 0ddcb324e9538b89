//! Records: the rows of a flush with their values, what was counted besides, and how their lines are written.
//!
//! `sd_replay` and `sd_flush` make one of the tables that a flush took out, and give a backend whatever has a `RecordText`;
//! `sd_graphite` and `sd_console` are such texts, row by row and line by line. Rows are put in order in the scratch's room, and a
//! row's figures are worked out when it is asked for. Only `RecordScratch::open` takes memory. A record writes nothing, and
//! leaves the tables as they are; lines go to any `Sink`.
#![tactic(auto)]

mod bins;
mod figure_parts;
mod figures;
mod line;
mod placed;
mod record;
mod record_text;
mod row;
mod rows;
mod scratch;
mod timer_parts;
mod timers;
mod values;

pub use figure_parts::FigureParts;
pub use figures::{Figure, Label, whole_number};
pub use line::{push_number, push_text, push_whole, write_line, write_lines};
pub use record::Record;
pub use record_text::RecordText;
pub use row::{Bin, Bins, Parts, Row, TimerRow};
pub use rows::{RowText, write_row, write_rows};
pub use scratch::RecordScratch;
