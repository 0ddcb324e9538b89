//! The laws that no other crate stands on: of objects, settings, admin lines, the desk, callers, streams, the ring, routes, looks,
//! scripts, replays and runs. `specs/` has what only they speak of; the functions have no code.
#![tactic(auto)]

mod accounting;
mod acts;
mod admin;
mod audit;
mod deliveries;
mod desk;
mod earlier;
mod looks;
mod outside;
mod ring;
mod routes;
mod script;
mod served;
mod streams;
mod totals;

pub use accounting::{records_are_documented, replays_are_runs, samples_are_accounted};
pub use acts::acts_add_up;
pub use admin::{deletions_have_names, ends_stand_last, lines_have_words};
pub use audit::{runs_add_up, served_totals_add_up};
pub use deliveries::deliveries_are_lists;
pub use desk::{
    desk_histories_add_up, desks_are_balanced, desks_count, desks_keep_counts, parts_add_up,
};
pub use earlier::{earlier_files, earlier_files_play_as_before};
pub use looks::looks_go_on;
pub use outside::empty_write;
pub use ring::order_is_free;
pub use routes::all_up_all_owned;
pub use script::{one_thing_stands_next, scripts_have_one_reading};
pub use served::callers_tell_the_run;
pub use streams::{
    cutters_give_all_lines, lines_come_in_pieces, reads_end_each_line, streams_are_their_parts,
    streams_have_samples,
};
pub use totals::wires_add_up;
