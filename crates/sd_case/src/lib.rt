//! What the programs of cases share: the words and bytes of a case, its answer, why it has none, and the loop over
//! the lines.
//!
//! All programs of cases stand on it. A case is a line of standard input, and is printed with its answer, or with ` ? ` and why it
//! has none; a heading is printed as it is.
//! The program `statsd` has nothing of it.
#![tactic(auto)]

mod answer;
mod names;
mod refusal;
mod table;
mod text;

pub use answer::Answer;
pub use names::{key_of, kind_of, kind_word};
pub use refusal::Refusal;
pub use table::answer_cases;
pub use text::{bytes_of, count_up_to, number, push_number, set_number};
