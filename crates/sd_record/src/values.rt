ghost use Rattle.std.specs.Prelude.{◌≡◌, ◌*◌, ◌^◌, ◌<◌, ◌≤◌, length, slice_get, unsigned_abs, All, IfSome};
ghost use Rattle.sd_model_text.specs.Names.{Counter, Timer};
ghost use Rattle.sd_model_record.specs.Record.{row_of_kind, timer_figures, TimerRow as RowOfTimer, GaugeRow, SetRow};
ghost use Rattle.sd_model_shard.specs.Values.{distinct};
ghost use Rattle.sd_plan.specs.Plan.{plan_view};
ghost use Rattle.sd_stats.specs.Timer.{numbers, IsTimerValue};
ghost use Rattle.sd_record.specs.Row.{row_view};

use crate::row::{Row, TimerRow};
use crate::timers::put_timer_of;
use sd_decimal::{Micro, Sum, per_second};
use sd_epoch::{Scratch, Table};
use sd_key::{Key, Kind};
use sd_plan::Reckoning;
use sd_stats::distinct;

/// Puts the row of a record for the i-th row of a table into `row`, in place of what it has. The room is for the values
/// and members of its samples.
///
/// Of a row that keeps its kind the fields alone are written, and of its key the bytes that it has. To make one anew writes
/// as many bytes as a timer has.
pub(crate) fn put_row(table: &Table, i: u32, plan: &Reckoning, room: &mut Scratch, row: &mut Row)
    requires place { i < length table.now.listed }
    requires room { table.now.entries ≤ room.old.room }
    ensures row { IfSome (slice_get table.now.listed i) (λ e. row_view row.new ≡ row_of_kind e.0.kind (plan_view plan.now) e.0.key e.1.since) }
    ensures room { room.new.room ≡ room.old.room }
{
    match table.get(i).kind {
        Kind::Counter => put_counter(table, i, plan, row),
        Kind::Timer => put_timer(table, i, plan, room, row),
        Kind::Gauge => put_gauge(table, i, row),
        Kind::Set => put_set(table, i, room, row),
    }
}

/// The key of the i-th row of a table.
fn key_of(table: &Table, i: u32) -> Key
    requires { i < length table.now.listed }
    ensures { IfSome (slice_get table.now.listed i) (λ e. result ≡ e.0.key) }
{
    table.get(i).key.clone().unwrap()
}

/// Puts the i-th row of a table into `row` as a counter.
fn put_counter(table: &Table, i: u32, plan: &Reckoning, row: &mut Row)
    requires { i < length table.now.listed }
    ensures { IfSome (slice_get table.now.listed i) (λ e. row_view row.new ≡ row_of_kind Counter (plan_view plan.now) e.0.key e.1.since) }
{
    let weight = table.row(i).weight;
    let per_second = per_second(weight, plan.interval_ms);
    if let Row::Counter { key, count, rate } = row {
        key.clone_from(table.get(i).key);
        *count = weight;
        *rate = per_second;
    } else {
        *row = Row::Counter {
            key: key_of(table, i),
            count: weight,
            rate: per_second,
        };
    }
}

/// Puts the i-th row of a table into `row` as a timer.
fn put_timer(table: &Table, i: u32, plan: &Reckoning, room: &mut Scratch, row: &mut Row)
    requires place { i < length table.now.listed }
    requires kind { IfSome (slice_get table.now.listed i) (λ e. e.0.kind ≡ Timer) }
    requires room { table.now.entries ≤ room.old.room }
    ensures row { IfSome (slice_get table.now.listed i) (λ e. row_view row.new ≡ row_of_kind Timer (plan_view plan.now) e.0.key e.1.since) }
    ensures room { room.new.room ≡ room.old.room }
{
    let weight = table.row(i).weight;
    table.values_of(i, room);
    if let Row::Timer { key, timer } = row {
        key.clone_from(table.get(i).key);
        put_timer_of(key, weight, room.values(), plan, timer);
    } else {
        put_new_timer(table.get(i).key, weight, room.values(), plan, row);
    }
}

/// Puts a timer of this key, weight and values, made anew, into `row`. The slice is sorted.
fn put_new_timer(key: &Key, weight: Sum, values: &mut [Micro], plan: &Reckoning, row: &mut Row)
    requires weight { unsigned_abs weight.0 ≤ 17 * 10 ^ 34 }
    requires range { All IsTimerValue values.old }
    requires many { length values.old ≤ 2 ^ 20 }
    ensures { row_view row.new ≡ RowOfTimer key.now (timer_figures (plan_view plan.now) key.now weight.0 (numbers values.old)) }
{
    let mut timer = TimerRow::new();
    put_timer_of(key, weight, values, plan, &mut timer);
    *row = Row::Timer {
        key: key.clone().unwrap(),
        timer,
    };
}

/// Puts the i-th row of a table into `row` as a gauge.
fn put_gauge(table: &Table, i: u32, row: &mut Row)
    requires { i < length table.now.listed }
    ensures { IfSome (slice_get table.now.listed i) (λ e. row_view row.new ≡ GaugeRow e.0.key e.1.since.gauge) }
{
    let gauge = table.gauge_of(i);
    if let Row::Gauge { key, value } = row {
        key.clone_from(table.get(i).key);
        *value = gauge;
    } else {
        *row = Row::Gauge {
            key: key_of(table, i),
            value: gauge,
        };
    }
}

/// Puts the i-th row of a table into `row` as a set.
fn put_set(table: &Table, i: u32, room: &mut Scratch, row: &mut Row)
    requires place { i < length table.now.listed }
    requires room { table.now.entries ≤ room.old.room }
    ensures row { IfSome (slice_get table.now.listed i) (λ e. row_view row.new ≡ SetRow e.0.key (distinct e.1.since.members)) }
    ensures room { room.new.room ≡ room.old.room }
{
    table.members_of(i, room);
    let members = distinct(room.members());
    if let Row::Set { key, count } = row {
        key.clone_from(table.get(i).key);
        *count = members;
    } else {
        *row = Row::Set {
            key: key_of(table, i),
            count: members,
        };
    }
}
