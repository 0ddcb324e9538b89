//! Laws of text: which pieces are good and which are bad, over the whole piece, and how lines were read before values had
//! exponents. `specs/` has what only these laws and the crates that read names and lines speak of; the functions have no code.
//!
//! `sd_key`, `sd_line` and `sd_tcp` cite its definitions, and `sd_batch` a lemma.
#![tactic(auto)]

mod grammar;
mod names;

pub use grammar::{pieces_are_good_or_bad, pieces_have_one_colon, plain_lines_stay};
pub use names::parts_are_reported;
