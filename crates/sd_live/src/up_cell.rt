//! The cell of the set of nodes that are up.
ghost use Rattle.std.specs.Prelude.{◌≡◌, ◌<◌, ◌≤◌, ◌^◌, ◌++◌, [], ◌∷◌, length, map, Some, None, IfOk, All, true};
ghost use Rattle.std.specs.List.{last_or};
ghost use Rattle.crossbeam_utils.specs.Seq.{cell_view};
ghost use Rattle.sd_model_live.specs.Proxy.{all_of};
ghost use Rattle.sd_live.specs.Looks.{Begins, last_place};

use crate::pass::{UpPass, UpPasses};
use crate::rule::{Another, Gather, Look, Publish, SetCell, SetPass, Whole};
use std::alloc::{AllocError, Global};
use std::sync::Wait;

/// The set of nodes that are up, as one checker last published it. Bit i of a set says that the node in place i is up.
#[derive(Drop)]
pub struct UpCell {
    nodes: u8,
    sets: SetCell,
    ghost some: { 0 < nodes },
    ghost few: { nodes ≤ 64 },
}

impl UpCell {
    ghost use Rattle.sd_live.specs.Live.{looks_of, nodes_of, seen, IsPassOf, IsCheckerOf, IsReceiverOf, publishes, published_in};

    /// A cell whose first set has all of so many nodes, with the checker's pass and one for each receiver. Only this call takes
    /// memory.
    ///
    /// # Errors
    ///
    /// Where no memory is left.
    pub fn open(alloc: Global, nodes: u8, receivers: u16) -> Result<(UpCell, UpPasses), AllocError>
        requires nodes { (0 < nodes) × (nodes ≤ 64) }
        requires receivers { 0 < receivers }
        ensures nodes { IfOk result (λ r. nodes_of r.0 ≡ nodes) }
        ensures checker { IfOk result (λ r. IsCheckerOf r.0 r.1.checker × (seen r.1.checker ≡ all_of nodes ∷ [])) }
        ensures receivers { IfOk result (λ r. All (λ p. IsReceiverOf r.0 p × (seen p ≡ all_of nodes ∷ [])) r.1.receivers.items) }
        ensures count { IfOk result (λ r. length r.1.receivers.items ≡ receivers) }
    {
        let all = u64::MAX >> (64 - nodes);
        let (sets, first) = SetCell::ruled(alloc, [0, all])?;
        let cell = UpCell::new(nodes, sets);
        let mut checker = UpPass::new(all, first);
        let mut made = Vec::new(alloc);
        for _ in 0..receivers {
            made.push(cell.another(&mut checker))?;
        }
        Ok((
            cell,
            UpPasses {
                checker,
                receivers: made,
            },
        ))
    }

    fn new(nodes: u8, sets: SetCell) -> UpCell
        requires { (0 < nodes) × (nodes ≤ 64) }
        ensures { (result.nodes ≡ nodes) × (result.sets ≡ sets) }
    {
        UpCell { nodes, sets }
    }

    // A receiver's pass, which has seen as much as this one.
    fn another(&self, pass: &mut UpPass) -> UpPass
        requires { IsPassOf self.now pass.old }
        ensures same { IsPassOf self.now pass.new × (publishes pass.new ≡ publishes pass.old) × (seen pass.new ≡ seen pass.old) }
        ensures new { IsReceiverOf self.now result × (seen result ≡ seen pass.old) }
    {
        let other = self.sets.split_pass::<Another>(&mut pass.pass);
        UpPass::new(pass.all, other)
    }

    /// Publishes a set, which each later look sees until the next one is published.
    pub fn publish<R: Wait>(&self, rt: &R, pass: &mut UpPass, up: u64)
        requires pass { IsCheckerOf self.now pass.old }
        requires count { length (seen pass.old) ≤ 2 ^ 62 }
        ensures pass { IsCheckerOf self.now pass.new }
        ensures seen { seen pass.new ≡ seen pass.old ++ up ∷ [] }
    {
        let found = self.sets.load_as::<Look, R>(rt, &mut pass.pass);
        self.sets
            .swap_as::<Publish, R>(rt, &mut pass.pass, [found[0] + 1, up]);
    }

    /// The last set of those published so far, or the first where none was. What a pass sees goes on from what it saw before, and
    /// the checker's has seen all. Each look counts as one of the pass's, at the place of the set that it answers.
    pub fn look<R: Wait>(&self, rt: &R, pass: &mut UpPass) -> u64
        requires { IsPassOf self.now pass.old }
        ensures pass { IsPassOf self.now pass.new × (publishes pass.new ≡ publishes pass.old) }
        ensures seen { Begins (seen pass.old) (seen pass.new) }
        ensures own { publishes pass.old ≡ true → seen pass.new ≡ seen pass.old }
        ensures answer { last_or None (seen pass.new) ≡ Some result }
        ensures looks { looks_of pass.new ≡ looks_of pass.old ++ last_place (seen pass.new) ∷ [] }
    {
        let found = self.sets.load_as::<Look, R>(rt, &mut pass.pass);
        if found[0] == 0 { pass.all } else { found[1] }
    }

    /// Ends the cell. What each receiver has seen is a beginning of the history of all sets, which is the checker's.
    pub fn close<R: Wait>(self, rt: &R, passes: UpPasses)
        requires checker { IsCheckerOf self passes.checker }
        requires receivers { All (IsPassOf self) passes.receivers.items }
        ensures { All (λ p. Begins (seen p) (seen passes.checker)) passes.receivers.items }
    {
        let UpPasses { checker, receivers } = passes;
        let UpPass { all: _, pass } = checker;
        let mut keeper = self.gather(pass, receivers);
        self.sets.load_as::<Look, R>(rt, &mut keeper);
    }

    // The checker's pass, with what the receivers had seen.
    fn gather(&self, mut keeper: SetPass, mut receivers: Vec<UpPass>) -> SetPass
        requires keeper { (keeper.table_id ≡ self.now.sets.table.shared.table_id) × ((cell_view keeper).joined ≡ []) }
        requires receivers { All (IsPassOf self.now) receivers.items }
        ensures cell { result.table_id ≡ keeper.table_id }
        ensures same { ((cell_view result).publishes ≡ (cell_view keeper).publishes) × ((cell_view result).published ≡ (cell_view keeper).published) }
        ensures joined { (cell_view result).joined ≡ map published_in receivers.items }
    {
        while let Some(next) = receivers.pop() {
            let UpPass { all: _, mut pass } = next;
            let whole = self.sets.split_pass::<Whole>(&mut pass);
            self.sets.join_pass::<Gather>(&mut keeper, whole);
        }
        keeper
    }
}
