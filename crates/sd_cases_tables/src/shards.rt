ghost use Rattle.std.specs.Prelude.{◌≡◌, ◌<◌, [], length, IfOk};
ghost use Rattle.std.specs.Option.{ForSome};
ghost use Rattle.sd_epoch.specs.Limits.{limits_of, AreLimits};

use crate::samples::sample_of;
use crate::turns::{most_steps, rows_at, swap_counted};
use sd_case::{Answer, Refusal, bytes_of, kind_of, kind_word, number};
use sd_epoch::{Limits, RowFacts, Table};
use sd_key::{Key, Kind, Pattern};
use sd_shard::{Cause, Dump, Keys, Placed, Policy, Shard, ShardBook};
use std::alloc::Global;
use std::marker::Brand;
use std::sync::ledger::Blank;

// the most rows, and the most entries
const MOST: u32 = 1 << 20;

/// The limits that a word writes as `ROWS/ENTRIES`, and as `ROWS/ENTRIES/sums` where sums are made on arrival.
pub(crate) fn limits_from(word: &str) -> Result<Limits, Refusal>
    ensures { IfOk result (λ limits. AreLimits (limits_of limits)) }
{
    let (word, sums_on_arrival) = match word.strip_suffix("/sums") {
        Some(word) => (word, true),
        None => (word, false),
    };
    let (rows, entries) = word.split_once('/').ok_or(Refusal::Malformed)?;
    let rows = number::<u32>(rows)?;
    let entries = number::<u32>(entries)?;
    if rows == 0 || rows > MOST || entries == 0 || entries > MOST {
        return Err(Refusal::Condition);
    }
    Ok(Limits {
        rows,
        entries,
        sums_on_arrival,
    })
}

/// The policy that deletes the kinds of a word when idle, which are joined by `+`, and gauges at the swap that
/// `gauges=SWAPS` says. `none` is none.
pub(crate) fn policy_from(word: &str) -> Result<Policy, Refusal> {
    let mut policy = Policy {
        counters: false,
        timers: false,
        gauges: false,
        sets: false,
        max_ttl: 1,
    };
    for kind in word.split('+') {
        let (kind, swaps) = kind.split_once('=').unwrap_or((kind, "1"));
        match kind {
            "counters" => policy.counters = true,
            "timers" => policy.timers = true,
            "gauges" => {
                policy.gauges = true;
                policy.max_ttl = number(swaps)?;
            }
            "sets" => policy.sets = true,
            "none" => (),
            _ => return Err(Refusal::Malformed),
        }
    }
    Ok(policy)
}

/// `goes_idle KINDS KIND SWAPS`: whether a row of the kind goes at a swap so many swaps behind its last sample.
pub(crate) fn expires(
    kinds: &str,
    kind: &str,
    swaps: &str,
    out: &mut Answer,
) -> Result<(), Refusal> {
    out.yes_or_no(policy_from(kinds)?.expires(kind_of(kind)?, number(swaps)?));
    Ok(())
}

/// A shard, the limits and the policy that it was opened for, the table that came out at the last turn, and how many steps
/// that turn was allowed.
#[derive(Drop)]
struct Bench {
    limits: Limits,
    policy: Policy,
    shard: Shard,
    spare: Option<Table>,
    most: u64,
    ghost allowed: { AreLimits (limits_of limits) },
    ghost opened: { shard.table.limits ≡ limits_of limits },
    ghost spare_limits: { ForSome spare (λ table. table.limits ≡ limits_of limits) },
    ghost no_samples: { ForSome spare (λ table. table.held ≡ 0) },
    ghost no_entries: { ForSome spare (λ table. table.entries ≡ 0) },
}

impl Bench {
    /// Executes steps, and appends what each answers.
    fn steps(&mut self, alloc: Global, steps: &[&str], out: &mut Answer) -> Result<(), Refusal> {
        for step in steps {
            out.step(step);
            self.step(alloc, step, out)?;
        }
        Ok(())
    }

    /// Executes a step: `delete=KIND/PATTERN`, `dump=KIND`, or one without an argument.
    fn step(&mut self, alloc: Global, step: &str, out: &mut Answer) -> Result<(), Refusal> {
        match step.split_once('=') {
            Some(("delete", what)) => self.delete(alloc, what, out),
            Some(("dump", kind)) => self.dump(alloc, kind, out),
            Some(_) => Err(Refusal::Malformed),
            None => self.plain_step(alloc, step, out),
        }
    }

    /// Executes a step without an argument: `swap`, `turn`, `steps`, `book`, or else the sample that it writes.
    fn plain_step(&mut self, alloc: Global, step: &str, out: &mut Answer) -> Result<(), Refusal> {
        match step {
            "swap" => self.swap(alloc, out),
            "turn" => self.turn(alloc, out),
            "steps" => {
                out.count("at most ", self.most);
                Ok(())
            }
            "book" => {
                show_book(&self.shard.book(), out);
                Ok(())
            }
            _ => {
                let sample = sample_of(alloc, step)?;
                show_placed(self.shard.sample(&sample), out);
                Ok(())
            }
        }
    }

    /// Swaps in an empty table, and shows the one that comes out.
    fn swap(&mut self, alloc: Global, out: &mut Answer) -> Result<(), Refusal> {
        let spare = Table::open(alloc, self.limits, 0)?;
        let table = swap_counted::<Brand>(&mut self.shard, spare, Blank::new(1));
        show_table(alloc, &table, out)
    }

    /// Swaps in the table that came out at the last turn, with its rows in place, and shows the one that comes out.
    fn turn(&mut self, alloc: Global, out: &mut Answer) -> Result<(), Refusal> {
        let spare = match self.spare.take() {
            Some(table) => table,
            None => Table::open(alloc, self.limits, 0)?,
        };
        let there = rows_at(alloc, &spare)?;
        let mut table = swap_counted::<Brand>(&mut self.shard, spare, Blank::new(1));
        self.most = most_steps(&table, &self.policy, &there);
        let shown = show_table(alloc, &table, out);
        table.clear_samples();
        self.spare = Some(table);
        shown
    }

    /// Deletes rows, and shows how many rows and samples went, and the keys in order.
    fn delete(&mut self, alloc: Global, what: &str, out: &mut Answer) -> Result<(), Refusal> {
        let (kind, pattern) = what.split_once('/').ok_or(Refusal::Malformed)?;
        let kind = kind_of(kind)?;
        let pattern = pattern_from(alloc, pattern)?;
        let mut keys = Keys::open(alloc, self.shard.rows())?;
        let deleted = self.shard.delete(kind, &pattern, &mut keys);
        keys.sort();
        out.count("rows ", u64::from(deleted.rows));
        out.count(", samples ", deleted.samples);
        for i in 0..keys.len() {
            out.text("\n    ");
            out.bytes(keys.get(i).as_slice());
        }
        Ok(())
    }

    /// Shows the rows of a kind in order, with what their samples come to.
    fn dump(&mut self, alloc: Global, kind: &str, out: &mut Answer) -> Result<(), Refusal> {
        let mut dump = Dump::open(alloc, self.shard.rows())?;
        self.shard.dump(kind_of(kind)?, &mut dump);
        dump.sort();
        out.count("rows ", dump.len() as u64);
        for i in 0..dump.len() {
            let row = dump.get(i);
            out.text("\n    ");
            out.bytes(row.key.as_slice());
            out.count(": samples ", row.samples);
            out.text(", amount ");
            out.number(row.amount.0);
        }
        Ok(())
    }
}

/// The pattern that a word writes.
fn pattern_from(alloc: Global, word: &str) -> Result<Pattern, Refusal> {
    Pattern::of(&bytes_of(alloc, word)?).ok_or(Refusal::Malformed)
}

/// Appends the numbers of a shard.
fn show_book(book: &ShardBook, out: &mut Answer) {
    out.count("taken ", book.taken);
    out.count(", flushed ", book.flushed);
    out.count(", deleted ", book.deleted);
    out.count(", dropped ", book.dropped);
    out.count(", held ", book.held);
    out.count(", rows ", u64::from(book.rows));
}

/// Appends what became of a sample.
fn show_placed(placed: Placed, out: &mut Answer) {
    match placed {
        Placed::Taken { number } => out.count("taken ", number),
        Placed::Dropped(Cause::NoRow { live, limit }) => {
            out.count("no row, ", u64::from(live));
            out.count(" of ", u64::from(limit));
        }
        Placed::Dropped(Cause::NoEntry { entries, limit }) => {
            out.count("no entry, ", entries);
            out.count(" of ", u64::from(limit));
        }
        Placed::Dropped(Cause::NoSum { summed, limit }) => {
            out.count("no sum, ", summed);
            out.count(" of ", limit);
        }
        Placed::Dropped(Cause::NoNumber { taken }) => out.count("no number, ", taken),
    }
}

/// Appends how many rows and samples a table has, and its rows by kind and name.
pub(crate) fn show_table(alloc: Global, table: &Table, out: &mut Answer) -> Result<(), Refusal> {
    out.count("rows ", u64::from(table.rows()));
    out.count(", samples ", table.held());
    let mut rows = Vec::new(alloc);
    for i in 0..table.rows() {
        let mut row = Answer::new(alloc);
        show_row(table, i, &mut row);
        rows.push(row.finish()?)?;
    }
    show_sorted(rows, out)
}

/// Appends lines in their order.
pub(crate) fn show_sorted(mut lines: Vec<String>, out: &mut Answer) -> Result<(), Refusal> {
    lines.sort()?;
    for line in &lines {
        out.text(line);
    }
    Ok(())
}

/// Appends the line of a table's row.
fn show_row(table: &Table, i: u32, out: &mut Answer)
    requires { i < length table.now.listed }
{
    show_facts(table.row(i), out);
    if table.get(i).kind == Kind::Gauge {
        out.text(", value ");
        out.number(i128::from(table.gauge_of(i).0));
    }
}

/// Appends what a table says of a row.
fn show_facts(row: RowFacts, out: &mut Answer) {
    let RowFacts {
        kind,
        key,
        base,
        swaps,
        samples,
        weight,
    } = row;
    show_name(kind, &key, out);
    out.text(": base ");
    out.number(i128::from(base.0));
    out.count(", swaps ", u64::from(swaps));
    out.count(", samples ", samples);
    out.text(", weight ");
    out.number(weight.0);
}

/// Begins the line of a row.
pub(crate) fn show_name(kind: Kind, key: &Key, out: &mut Answer) {
    out.text("\n    ");
    out.text(kind_word(kind));
    out.text(" ");
    out.bytes(key.as_slice());
}

/// `shard ROWS/ENTRIES KINDS STEPS`: what each step on a new shard answers, where rows of the kinds are deleted
/// when idle.
pub(crate) fn steps_on_shard(
    alloc: Global,
    limits: &str,
    kinds: &str,
    steps: &[&str],
    out: &mut Answer,
) -> Result<(), Refusal> {
    let limits = limits_from(limits)?;
    let policy = policy_from(kinds)?;
    let shard = Shard::open(alloc, limits, policy, 0)?;
    let mut bench = Bench {
        limits,
        policy,
        shard,
        spare: None,
        most: 0,
    };
    bench.steps(alloc, steps, out)
}
