ghost use Rattle.std.specs.Prelude.{◌≡◌, ℕ, ◌<◌, All, length, slice_index_or};
ghost use denote.Param.Send.{IsSync, IsSend};

use log::Log;
use std::sync::Wait;
use std::thread;
use std::thread::{Threads, join_mut};

/// What a thread of its own does, over what all threads share.
pub trait Worker<C> {
    // It may be run over what is shared.
    ghost can_run: { C → Self → Type 0 };

    // A run left it so.
    ghost has_run: { C → Self → Self → Type 0 };

    /// Does its work, once.
    fn run<R: Wait + Log>(&mut self, rt: &R, shared: &C)
        requires { can_run shared.now self.old }
        ensures { has_run shared.now self.old self.new };
}

// Runs each worker in a thread of its own.
fn run_each<C: Sync, W: Worker<C> + Send, R: Threads + Wait + Log + Sync>(
    rt: &R,
    shared: &C,
    workers: &mut [W],
)
    requires { All (W.can_run shared.now) workers.old }
    ensures len { length workers.new ≡ length workers.old }
    ensures each { (i : ℕ) (d : _) → i < length workers.old → W.has_run shared.now (slice_index_or workers.old i d) (slice_index_or workers.new i d) }
{
    let threads = workers.len().max(1);
    thread::for_each_mut(
        rt,
        workers,
        threads,
        &|_, worker: &mut W| worker.run(rt, shared),
    );
}

/// Runs two workers side by side.
pub fn run_pair<C: Sync, F: Worker<C> + Send, G: Worker<C> + Send, R: Threads + Wait + Log + Sync>(
    rt: &R,
    shared: &C,
    first: &mut F,
    second: &mut G,
)
    requires first { F.can_run shared.now first.old }
    requires second { G.can_run shared.now second.old }
    ensures first { F.has_run shared.now first.old first.new }
    ensures second { G.has_run shared.now second.old second.new }
{
    join_mut(
        rt,
        &mut || first.run(rt, shared),
        &mut || second.run(rt, shared),
    );
}

// Runs two workers and so many others side by side.
fn run_two<
    C: Sync,
    F: Worker<C> + Send,
    G: Worker<C> + Send,
    W: Worker<C> + Send,
    R: Threads + Wait + Log + Sync,
>(rt: &R, shared: &C, first: &mut F, second: &mut G, others: &mut [W])
    requires first { F.can_run shared.now first.old }
    requires second { G.can_run shared.now second.old }
    requires others { All (W.can_run shared.now) others.old }
    ensures first { F.has_run shared.now first.old first.new }
    ensures second { G.has_run shared.now second.old second.new }
    ensures len { length others.new ≡ length others.old }
    ensures each { (i : ℕ) (d : _) → i < length others.old → W.has_run shared.now (slice_index_or others.old i d) (slice_index_or others.new i d) }
{
    join_mut(
        rt,
        &mut ||
            requires sends { IsSync R.row × IsSync C.row × IsSend F.row × IsSend G.row }
            requires first { F.can_run shared.now first.now }
            requires second { G.can_run shared.now second.now }
            ensures first { F.has_run shared.entry.now first.entry.now first.exit.now }
            ensures second { G.has_run shared.entry.now second.entry.now second.exit.now }
        { run_pair(rt, shared, first, second) },
        &mut ||
            requires sends { IsSync R.row × IsSync C.row × IsSend W.row }
            requires others { All (W.can_run shared.now) others.now }
            ensures len { length others.exit.now ≡ length others.entry.now }
            ensures each { (i : ℕ) (d : _) → i < length others.entry.now → W.has_run shared.entry.now (slice_index_or others.entry.now i d) (slice_index_or others.exit.now i d) }
        { run_each(rt, shared, others) },
    );
}

/// Runs three workers and so many others side by side, each in a thread of its own where the machine gives one.
pub fn run_workers<
    C: Sync,
    F: Worker<C> + Send,
    G: Worker<C> + Send,
    H: Worker<C> + Send,
    W: Worker<C> + Send,
    R: Threads + Wait + Log + Sync,
>(rt: &R, shared: &C, first: &mut F, second: &mut G, third: &mut H, others: &mut [W])
    requires first { F.can_run shared.now first.old }
    requires second { G.can_run shared.now second.old }
    requires third { H.can_run shared.now third.old }
    requires others { All (W.can_run shared.now) others.old }
    ensures first { F.has_run shared.now first.old first.new }
    ensures second { G.has_run shared.now second.old second.new }
    ensures third { H.has_run shared.now third.old third.new }
    ensures len { length others.new ≡ length others.old }
    ensures each { (i : ℕ) (d : _) → i < length others.old → W.has_run shared.now (slice_index_or others.old i d) (slice_index_or others.new i d) }
{
    join_mut(
        rt,
        &mut || third.run(rt, shared),
        &mut ||
            requires sends { IsSync R.row × IsSync C.row × IsSend F.row × IsSend G.row × IsSend W.row }
            requires first { F.can_run shared.now first.now }
            requires second { G.can_run shared.now second.now }
            requires others { All (W.can_run shared.now) others.now }
            ensures first { F.has_run shared.entry.now first.entry.now first.exit.now }
            ensures second { G.has_run shared.entry.now second.entry.now second.exit.now }
            ensures len { length others.exit.now ≡ length others.entry.now }
            ensures each { (i : ℕ) (d : _) → i < length others.entry.now → W.has_run shared.entry.now (slice_index_or others.entry.now i d) (slice_index_or others.exit.now i d) }
        { run_two(rt, shared, first, second, others) },
    );
}
