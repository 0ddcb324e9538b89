ghost use Rattle.std.specs.Prelude.{◌≡◌, ℕ, ◌<◌, length, map};
ghost use Rattle.sd_model_record.specs.Backends.{text_of};
ghost use Rattle.sd_model_record.specs.Record.{record_of};
ghost use Rattle.sd_model_shard.specs.Shard.{after_swap, table_of};
ghost use Rattle.sd_plan.specs.Plan.{plan_view};
ghost use Rattle.sd_desk.specs.Marks.{marks_of};
ghost use Rattle.sd_delivery.specs.Delivery.{GivesBackends};
ghost use Rattle.sd_shards.specs.Shards.{AreAlike, numbers, state_at};
ghost use Rattle.sd_replay.specs.Room.{HasRoom};
ghost use Rattle.sd_desk.specs.Steps.{taken, marked};

use sd_delivery::deliver;
use sd_desk::{Desk, RoundMarks};
use sd_outside::{Backend, Backs};
use sd_plan::{Names, Reckoning};
use sd_record::{Record, RecordScratch};
use sd_shards::Shards;

/// Swaps the shards, takes the tally, and gives the backends that are used the record that the plan makes of all tables.
/// Answers the marks.
pub(crate) fn flush<B: Backend>(
    shards: &mut Shards,
    desk: &mut Desk,
    scratch: &mut RecordScratch,
    plan: &Reckoning,
    names: &Names,
    ts: u64,
    backs: &mut Backs<B>,
) -> RoundMarks
    requires room { HasRoom (length shards.old.states) shards.old.limits scratch.old.room }
    ensures states { (i : ℕ) → i < length shards.old.states → state_at shards.new i ≡ after_swap shards.old.policy (state_at shards.old i) }
    ensures alike { AreAlike shards.old shards.new }
    ensures desk { desk.new ≡ marked (taken desk.old) (marks_of result) }
    ensures room { scratch.new.room ≡ scratch.old.room }
    ensures gives { GivesBackends B.seen (λ b. text_of names.now b (record_of (plan_view plan.now) (map (λ i. table_of (state_at shards.old i)) (numbers shards.old)) (desk.old).tally ts)) (marks_of result) backs.old backs.new }
{
    shards.swap();
    let tally = desk.take();
    let marks = {
        let mut record = Record::over(shards.swapped(), plan, scratch, tally, ts);
        deliver(&mut record, names, backs)
    };
    desk.mark(marks);
    marks
}
