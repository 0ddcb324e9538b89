//! One checker publishes while receivers look.
ghost use Rattle.std.specs.Prelude.{◌≡◌, ℕ, ◌+◌, ◌^◌, ◌<◌, ◌≤◌, ◌++◌, [], ◌∷◌, length, map, slice_index_or, IfOk, All};
ghost use Rattle.sd_model_live.specs.Proxy.{all_of};
ghost use Rattle.sd_live.specs.Looks.{HaveAnswered};
ghost use Rattle.sd_live.specs.Live.{nodes_of, seen, IsPassOf, IsCheckerOf, IsReceiverOf};
ghost use Rattle.sd_cases_outlets.specs.Lookers.{HasLooked, IsNew, HasSeen};

use crate::looker::Looker;
use sd_live::{UpCell, UpPass, UpPasses};
use std::alloc::{AllocError, Global};
use std::sync::Wait;
use std::thread::{Threads, for_each_mut, join};

impl Looker {
    /// Looks so many times, unless memory runs out.
    pub fn look_often<R: Wait>(&mut self, rt: &R, cell: &UpCell, looks: u32)
        requires pass { IsPassOf cell.now self.old.pass }
        requires none { self.old.answers.items ≡ [] }
        ensures { HasLooked cell.now self.old self.new }
    {
        for _ in 0..looks {
            let up = cell.look(rt, &mut self.pass);
            if self.answers.push(up).is_err() {
                return;
            }
        }
    }
}

/// Publishes these sets, in order.
fn publish_all<R: Wait>(rt: &R, cell: &UpCell, mut pass: UpPass, sets: &[u64]) -> UpPass
    requires pass { IsCheckerOf cell.now pass }
    requires count { length (seen pass) + length sets.now ≤ 2 ^ 62 }
    ensures pass { IsCheckerOf cell.now result }
    ensures seen { seen result ≡ seen pass ++ sets.now }
{
    for &up in sets {
        cell.publish(rt, &mut pass, up);
    }
    pass
}

/// A receiver for each pass.
fn lookers_of(alloc: Global, passes: Vec<UpPass>) -> Result<Vec<Looker>, AllocError>
    ensures { IfOk result (λ lookers. (map (λ l. l.pass) lookers.items ≡ passes.items) × All (λ l. l.answers.items ≡ []) lookers.items) }
{
    let mut lookers = Vec::with_capacity(alloc, passes.len())?;
    for pass in passes {
        lookers.push(Looker {
            pass,
            answers: Vec::new(alloc),
        })?;
    }
    Ok(lookers)
}

/// A receiver for each new pass, which was answered nothing yet.
fn new_lookers(
    alloc: Global,
    cell: &UpCell,
    nodes: u8,
    passes: Vec<UpPass>,
) -> Result<Vec<Looker>, AllocError>
    requires nodes { nodes_of cell.now ≡ nodes }
    requires passes { All (λ p. IsReceiverOf cell.now p × (seen p ≡ all_of nodes ∷ [])) passes.items }
    ensures { IfOk result (λ lookers. All (IsNew cell.now) lookers.items) }
{
    let lookers = lookers_of(alloc, passes)?;
    Ok(lookers)
}

/// Each receiver looks, in a thread of its own where there is one.
fn look_each<R: Threads + Wait + Sync>(rt: &R, cell: &UpCell, lookers: &mut [Looker], looks: u32)
    requires { All (λ l. IsPassOf cell.now l.pass × (l.answers.items ≡ [])) lookers.old }
    ensures len { length lookers.new ≡ length lookers.old }
    ensures each { (i : ℕ) (d : Looker) → i < length lookers.old → HasLooked cell.now (slice_index_or lookers.old i d) (slice_index_or lookers.new i d) }
{
    for_each_mut(
        rt,
        lookers,
        16,
        &|_, looker: &mut Looker|
            requires { IsPassOf cell.now looker.now.pass × (looker.now.answers.items ≡ []) }
            ensures { HasLooked cell.entry.now looker.entry.now looker.exit.now }
        { looker.look_often(rt, cell, looks) },
    );
}

/// The receivers, after each has looked.
fn look_all<R: Threads + Wait + Sync>(
    rt: &R,
    cell: &UpCell,
    mut lookers: Vec<Looker>,
    looks: u32,
) -> Vec<Looker>
    requires { All (IsNew cell.now) lookers.items }
    ensures { All (HasSeen cell.now) result.items }
{
    look_each(rt, cell, lookers.as_mut_slice(), looks);
    lookers
}

/// The passes, and what each was answered.
fn parted(alloc: Global, lookers: Vec<Looker>) -> Result<(Vec<UpPass>, Vec<Vec<u64>>), AllocError>
    ensures passes { IfOk result (λ r. r.0.items ≡ map (λ l. l.pass) lookers.items) }
    ensures answers { IfOk result (λ r. r.1.items ≡ map (λ l. l.answers) lookers.items) }
{
    let mut passes = Vec::with_capacity(alloc, lookers.len())?;
    let mut answers = Vec::with_capacity(alloc, lookers.len())?;
    for looker in lookers {
        let Looker {
            pass,
            answers: answered,
        } = looker;
        passes.push(pass)?;
        answers.push(answered)?;
    }
    Ok((passes, answers))
}

/// Publishes sets while receivers look.
fn work<R: Threads + Wait + Sync>(
    rt: &R,
    cell: &UpCell,
    checker: UpPass,
    lookers: Vec<Looker>,
    sets: &[u64],
    looks: u32,
) -> (UpPass, Vec<Looker>)
    requires checker { IsCheckerOf cell.now checker × (length (seen checker) + length sets.now ≤ 2 ^ 62) }
    requires lookers { All (IsNew cell.now) lookers.items }
    ensures checker { IsCheckerOf cell.now result.0 × (seen result.0 ≡ seen checker ++ sets.now) }
    ensures lookers { All (HasSeen cell.now) result.1.items }
{
    join(
        rt,
        move || -> UpPass
            requires { IsCheckerOf cell.now checker × (length (seen checker) + length sets.now ≤ 2 ^ 62) }
            ensures { IsCheckerOf cell.entry.now result × (seen result ≡ seen checker ++ sets.entry.now) }
        { publish_all(rt, cell, checker, sets) },
        move || -> Vec<Looker>
            requires { All (IsNew cell.now) lookers.items }
            ensures { All (HasSeen cell.entry.now) result.items }
        { look_all(rt, cell, lookers, looks) },
    )
}

/// One checker publishes sets while receivers look. What each was answered are members of one
/// history, whose places never fall: the set of all nodes, and then those that were published.
pub fn run<R: Threads + Wait + Sync>(
    rt: &R,
    alloc: Global,
    nodes: u8,
    receivers: u16,
    sets: &[u64],
    looks: u32,
) -> Result<Vec<Vec<u64>>, AllocError>
    requires nodes { (0 < nodes) × (nodes ≤ 64) }
    requires receivers { 0 < receivers }
    requires sets { length sets.now < 2 ^ 62 }
    ensures { IfOk result (λ answers. All (λ ups. HaveAnswered (all_of nodes ∷ []) (all_of nodes ∷ sets.now) ups.items) answers.items) }
{
    let (cell, passes) = UpCell::open(alloc, nodes, receivers)?;
    let UpPasses { checker, receivers } = passes;
    let lookers = new_lookers(alloc, &cell, nodes, receivers)?;
    let (checker, lookers) = work(rt, &cell, checker, lookers, sets, looks);
    let (receivers, answers) = parted(alloc, lookers)?;
    cell.close(rt, UpPasses { checker, receivers });
    Ok(answers)
}
