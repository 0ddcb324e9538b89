//! The workers of a server with outlets.
ghost use Rattle.std.specs.Prelude.{◌≡◌, ℕ, ◌<◌, All, length, slice_index_or};
ghost use denote.Param.Send.{IsSync, IsSend};

use log::Log;
use sd_workers::{Worker, run_pair, run_workers};
use std::sync::Wait;
use std::thread::{Threads, join_mut};

/// Runs three workers and so many others side by side, and the workers of the outlets beside them.
pub(crate) fn run_with_pair<
    C: Sync,
    F: Worker<C> + Send,
    G: Worker<C> + Send,
    H: Worker<C> + Send,
    K: Worker<C> + Send,
    M: Worker<C> + Send,
    W: Worker<C> + Send,
    R: Threads + Wait + Log + Sync,
>(
    rt: &R,
    shared: &C,
    first: &mut F,
    second: &mut G,
    third: &mut H,
    fourth: &mut K,
    fifth: &mut M,
    others: &mut [W],
)
    requires first { F.can_run shared.now first.old }
    requires second { G.can_run shared.now second.old }
    requires third { H.can_run shared.now third.old }
    requires fourth { K.can_run shared.now fourth.old }
    requires fifth { M.can_run shared.now fifth.old }
    requires others { All (W.can_run shared.now) others.old }
    ensures first { F.has_run shared.now first.old first.new }
    ensures second { G.has_run shared.now second.old second.new }
    ensures third { H.has_run shared.now third.old third.new }
    ensures fourth { K.has_run shared.now fourth.old fourth.new }
    ensures fifth { M.has_run shared.now fifth.old fifth.new }
    ensures len { length others.new ≡ length others.old }
    ensures each { (i : ℕ) (d : _) → i < length others.old → W.has_run shared.now (slice_index_or others.old i d) (slice_index_or others.new i d) }
{
    join_mut(
        rt,
        &mut ||
            requires sends { IsSync R.row × IsSync C.row × IsSend F.row × IsSend G.row × IsSend H.row × IsSend W.row }
            requires first { F.can_run shared.now first.now }
            requires second { G.can_run shared.now second.now }
            requires third { H.can_run shared.now third.now }
            requires others { All (W.can_run shared.now) others.now }
            ensures first { F.has_run shared.entry.now first.entry.now first.exit.now }
            ensures second { G.has_run shared.entry.now second.entry.now second.exit.now }
            ensures third { H.has_run shared.entry.now third.entry.now third.exit.now }
            ensures len { length others.exit.now ≡ length others.entry.now }
            ensures each { (i : ℕ) (d : _) → i < length others.entry.now → W.has_run shared.entry.now (slice_index_or others.entry.now i d) (slice_index_or others.exit.now i d) }
        { run_workers(rt, shared, first, second, third, others) },
        &mut ||
            requires sends { IsSync R.row × IsSync C.row × IsSend K.row × IsSend M.row }
            requires fourth { K.can_run shared.now fourth.now }
            requires fifth { M.can_run shared.now fifth.now }
            ensures fourth { K.has_run shared.entry.now fourth.entry.now fourth.exit.now }
            ensures fifth { M.has_run shared.entry.now fifth.entry.now fifth.exit.now }
        { run_pair(rt, shared, fourth, fifth) },
    );
}
