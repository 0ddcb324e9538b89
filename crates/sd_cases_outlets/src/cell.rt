//! Steps on a cell by one thread.
ghost use Rattle.std.specs.Prelude.{◌≡◌, OnOk};
ghost use Rattle.sd_live.specs.Live.{IsPassOf};

use sd_case::{Answer, Refusal, number};
use sd_live::{UpCell, UpPasses};
use std::alloc::Global;
use std::sync::Wait;

// How many sets may be published.
const MOST_SETS: u64 = 1 << 62;

/// The passes of a cell, and how many sets were published.
#[derive(Drop)]
pub struct Watch {
    pub passes: UpPasses,
    pub published: u64,
}

impl Watch {
    ghost use Rattle.sd_cases_outlets.specs.Cell.{AreReady};

    /// Publishes a set.
    ///
    /// # Errors
    ///
    /// `Condition` where as many were published as may be.
    fn publish<R: Wait>(&mut self, rt: &R, cell: &UpCell, up: u64) -> Result<(), Refusal>
        requires { AreReady cell.now self.old }
        ensures { OnOk result (AreReady cell.now self.new) }
    {
        if self.published >= MOST_SETS {
            return Err(Refusal::Condition);
        }
        cell.publish(rt, &mut self.passes.checker, up);
        self.published += 1;
        Ok(())
    }

    /// What a receiver's look answers.
    ///
    /// # Errors
    ///
    /// `Condition` where there is no receiver in this place.
    fn look<R: Wait>(&mut self, rt: &R, cell: &UpCell, place: usize) -> Result<u64, Refusal>
        requires { AreReady cell.now self.old }
        ensures { OnOk result (AreReady cell.now self.new) }
    {
        if place >= self.passes.receivers.len() {
            return Err(Refusal::Condition);
        }
        Ok(cell.look(rt, &mut self.passes.receivers[place]))
    }

    /// Executes a step.
    fn execute<R: Wait>(
        &mut self,
        rt: &R,
        cell: &UpCell,
        step: &str,
        out: &mut Answer,
    ) -> Result<(), Refusal>
        requires { AreReady cell.now self.old }
        ensures { OnOk result (AreReady cell.now self.new) }
    {
        match step.split_once('=') {
            Some(("publish", up)) => {
                self.publish(rt, cell, number(up)?)?;
                out.text("published");
            }
            Some(("look", place)) => out.count("", self.look(rt, cell, number(place)?)?),
            None if step == "own" => out.count("", cell.look(rt, &mut self.passes.checker)),
            _ => return Err(Refusal::Malformed),
        }
        Ok(())
    }
}

/// `cell NODES RECEIVERS STEPS`: what each step on a cell of so many nodes and receivers answers, and then its close.
pub fn steps_on_cell<R: Wait>(
    rt: &R,
    alloc: Global,
    nodes: &str,
    receivers: &str,
    steps: &[&str],
    out: &mut Answer,
) -> Result<(), Refusal> {
    let nodes = number::<u8>(nodes)?;
    let receivers = number::<u16>(receivers)?;
    if nodes == 0 || nodes > 64 || receivers == 0 {
        return Err(Refusal::Condition);
    }
    let (cell, passes) = UpCell::open(alloc, nodes, receivers)?;
    let mut watch = Watch {
        passes,
        published: 0,
    };
    for word in steps {
        out.step(word);
        watch.execute(rt, &cell, word, out)?;
    }
    out.step("close");
    cell.close(rt, watch.passes);
    out.text("closed");
    Ok(())
}
