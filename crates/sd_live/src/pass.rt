//! What a thread knows of the sets.
ghost use Rattle.std.specs.Prelude.{◌≡◌, []};
ghost use Rattle.crossbeam_utils.specs.Seq.{cell_view};

use crate::rule::SetPass;

/// What one thread looks with, or publishes. It has the history of the sets as it has last seen it, which contracts alone see.
#[derive(Drop)]
pub struct UpPass {
    // The first set.
    pub(crate) all: u64,
    pub(crate) pass: SetPass,
    ghost alone: { (cell_view pass).joined ≡ [] },
}

impl UpPass {
    pub(crate) fn new(all: u64, pass: SetPass) -> UpPass
        requires { (cell_view pass).joined ≡ [] }
        ensures { (result.all ≡ all) × (result.pass ≡ pass) }
    {
        UpPass { all, pass }
    }
}

/// The passes of a cell.
#[derive(Drop)]
pub struct UpPasses {
    /// The one that publishes.
    pub checker: UpPass,
    /// Those of the receivers, in their order.
    pub receivers: Vec<UpPass>,
}
