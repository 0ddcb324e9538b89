//! The rule of the cell of sets, and what its steps tell. No value of these types is made.
ghost use Rattle.sd_live.specs.Views.{first_view, informed, nothing, gathered};
ghost use Rattle.sd_live.specs.Rule.{InStep, Looked, Published};

use atomic_table::{Join, Split};
use crossbeam_utils::atomic::seq_cell::{Pass, RuledSeqCell};
use crossbeam_utils::rule::{Outcome, Protocol};
use std::collections::LinkedList;

/// What a pass knows.
pub struct SetView {
    /// It publishes.
    pub publishes: bool,
    /// The sets published, as it has last seen them.
    pub published: LinkedList<u64>,
    /// Those that each pass had last seen that was joined into it.
    pub joined: LinkedList<LinkedList<u64>>,
    /// How many sets were published at each of its looks, in order.
    pub looks: LinkedList<u64>,
}

/// The words are how many sets were published, and the last of them.
pub struct Sets;

impl Protocol<[u64; 2], SetView> for Sets {
    ghost holds = { InStep };

    ghost first = { first_view };
}

// The sets published so far were seen.
pub(crate) struct Look;

impl Outcome<[u64; 2], SetView> for Look {
    ghost then = { Looked };
}

// One set more was published.
pub(crate) struct Publish;

impl Outcome<[u64; 2], SetView> for Publish {
    ghost then = { Published };
}

// A new pass that has seen as much.
pub(crate) struct Another;

impl Split<SetView> for Another {
    ghost left = { λ v. v };

    ghost right = { informed };
}

// All that a pass has seen goes to a new one, which has taken no step.
pub(crate) struct Whole;

impl Split<SetView> for Whole {
    ghost left = { λ v. nothing };

    ghost right = { informed };
}

// What another pass had seen is kept.
pub(crate) struct Gather;

impl Join<SetView> for Gather {
    ghost both = { gathered };

    ghost spent = { nothing };
}

pub(crate) type SetCell = RuledSeqCell<[u64; 2], SetView, Sets, 2>;

pub(crate) type SetPass = Pass<[u64; 2], SetView>;
