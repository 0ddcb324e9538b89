//! Laws of one shard's history: where its samples are, what its replies add up to, and what it answers by the entries alone. The
//! functions have no code.
//!
//! `sd_batch`, `sd_batch` and `sd_pool` cite the sums. The laws of records stand on its lemmas.
#![tactic(auto)]

mod history;

pub use history::{
    answers_are_reported, histories_are_accounted, histories_grow, numbers_are_sums,
    summaries_are_documented,
};
