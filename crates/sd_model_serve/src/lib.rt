//! The definitions of what threads do at shards together: who did what, and what datagrams ask of each shard. There is no
//! function here: their laws are in `sd_law_record` and `sd_law_run`.
//!
//! The server's workers, `sd_pool`, `sd_batch` and `sd_shards` cite them for what they do. The definitions of a replay and of a
//! server's run stand on them: what a replay and a server share is stated once, here.
#![tactic(auto)]
