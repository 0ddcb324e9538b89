ghost use Rattle.std.specs.Prelude.{◌≡◌, map};
ghost use Rattle.sd_model_record.specs.Backends.{text_of};
ghost use Rattle.sd_model_record.specs.Record.{record_of};
ghost use Rattle.sd_plan.specs.Plan.{plan_view};
ghost use Rattle.sd_epoch.specs.Table.{table_of};
ghost use Rattle.sd_desk.specs.Marks.{marks_of};
ghost use Rattle.sd_desk.specs.Tally.{tally_of};
ghost use Rattle.sd_record.specs.Room.{room_for};
ghost use Rattle.sd_record.specs.Rows.{AreDisjoint};
ghost use Rattle.sd_pool.specs.Pool.{own_at};
ghost use Rattle.sd_shared_desk.specs.Shared.{number_of_seat, part_of};
ghost use Rattle.sd_flush.specs.Tables.{IsFlusherPost, waiting_in};
ghost use Rattle.sd_flush.specs.Flushing.{MakesRoundAt, form_of};

use crate::post::FlusherPost;
use crate::record_form::RecordForm;
use crate::swapping::swap_all;
use log::Log;
use sd_delivery::Delivery;
use sd_desk::{RoundMarks, Tally};
use sd_outside::Gate;
use sd_record::{Record, RecordScratch};
use sd_shard::Spares;
use sd_shared::Shared;
use std::sync::Wait;

/// The place of a gate behind the last swap of a round.
const SWAPPED: u8 = 2;

/// The place of a gate behind a round's marks.
const MARKED: u8 = 3;

// Gives a delivery the record of the tables that were swapped out.
fn give_record<D: Delivery, R: Wait + Log>(
    rt: &R,
    spares: &Spares,
    scratch: &mut RecordScratch,
    form: &RecordForm<'_>,
    tally: Tally,
    ts: u64,
    delivery: &mut D,
) -> RoundMarks
    requires room { scratch.old.room ≡ room_for spares.now.limits spares.now.room }
    requires disjoint { AreDisjoint spares.now.swapped }
    requires ready { D.is_ready delivery.old }
    ensures room { scratch.new.room ≡ scratch.old.room }
    ensures ready { D.is_ready delivery.new }
    ensures gives { D.gives (λ b. text_of form.now.names.now b (record_of (plan_view form.now.plan.now) (map table_of spares.now.swapped) (tally_of tally) ts))
        (marks_of result) delivery.old delivery.new }
{
    let mut record = Record::over(spares.swapped(), form.plan, scratch, tally, ts);
    delivery.give(rt, &mut record, form.names)
}

/// Makes a round: swaps the shards, in order, takes the desk's tally, gives a delivery the record of the tables and the tally, and
/// gives the desk the marks. The tables are then spare again. It has no turn while the texts are given, and takes no memory. It
/// waits for the turns of the shards and of the desk.
pub fn round<D: Delivery, G: Gate, C, R: Wait + Log>(
    rt: &R,
    shared: &Shared<'_, G, C>,
    post: &mut FlusherPost,
    form: &RecordForm<'_>,
    ts: u64,
    delivery: &mut D,
) -> RoundMarks
    requires post { IsFlusherPost shared.now.pool.now shared.now.desk.now post.old }
    requires ready { D.is_ready delivery.old }
    ensures post { IsFlusherPost shared.now.pool.now shared.now.desk.now post.new }
    ensures number { number_of_seat post.new.own ≡ number_of_seat post.old.own }
    ensures ready { D.is_ready delivery.new }
    ensures round { MakesRoundAt (form_of shared.now.pool.now form.now.plan.now form.now.names.now) D.gives ts (marks_of result)
        (own_at post.old.seat) (own_at post.new.seat) (part_of post.old.own) (part_of post.new.own)
        delivery.old delivery.new (waiting_in post.new.tables) }
{
    let tables = &mut post.tables;
    swap_all(rt, shared.pool, &mut post.seat, &mut tables.spares);
    shared.gate.pass(SWAPPED);
    let tally = shared.desk.take(rt, &mut post.own);
    let marks = give_record(
        rt,
        &tables.spares,
        &mut tables.scratch,
        form,
        tally,
        ts,
        delivery,
    );
    shared.desk.mark(rt, marks, &mut post.own);
    shared.gate.pass(MARKED);
    tables.spares.reclaim();
    marks
}
