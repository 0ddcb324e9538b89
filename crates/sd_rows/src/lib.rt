//! Rows in places that stay, found by kind and key through an index, and beside each row its tally.
//!
//! All memory is taken by `Rows::open`, and written as places come into use. A row keeps its place until it is removed. What a sample
//! needs of it besides its key stands together in 48 bytes.
//!
//! `sd_epoch` builds the table of a shard on them, and says what a tally comes to. `Steps` counts the rows that a swap copies, for
//! contracts alone. They know no samples and no entries, and which row goes is for `sd_shard` to say.
#![tactic(auto)]

mod hash;
mod head;
mod index;
mod laws;
mod ranking;
mod row;
mod rows;
mod steps;
mod tally;

pub use laws::{places_are_rows, rows_stay_apart};
pub use row::{Row, RowView};
pub use rows::Rows;
pub use steps::Steps;
pub use tally::Tally;
