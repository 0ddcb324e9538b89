ghost use Rattle.std.specs.Prelude.{IsTrue, All};
ghost use Rattle.sd_stats.specs.Timer.{IsTimerValue};

use crate::values::{decimal, limit, show, values};
use sd_case::{Answer, Refusal, number};
use sd_decimal::{Micro, Sum};
use sd_stats::TimerStats;
use std::alloc::Global;

// The most values of a timer, and the greatest.
const MOST: usize = 1 << 20;

const LARGEST: i64 = 10_000_000_000_000_000;

// The greatest threshold.
const HUNDRED: u64 = 100_000_000;

/// Whether a timer may have these values.
fn are_timer_values(values: &[Micro]) -> bool
    ensures { IsTrue result → All IsTimerValue values.now }
{
    values.iter().all(|v| 0 <= v.0 && v.0 <= LARGEST)
}

/// The timer of values that it may have.
fn timer<'a>(
    values: &'a mut [Micro],
    weight: Micro,
    interval_ms: u32,
) -> Result<TimerStats<'a>, Refusal> {
    if values.is_empty() || values.len() > MOST || interval_ms == 0 || !are_timer_values(values) {
        return Err(Refusal::Condition);
    }
    Ok(TimerStats::of(values, Sum(i128::from(weight.0)), interval_ms))
}

/// `sorted VALUE..`: what the slice is afterwards.
pub fn sorted(alloc: Global, words: &[&str], out: &mut Answer) -> Result<(), Refusal> {
    let mut values = values(alloc, words)?;
    timer(&mut values, Micro(0), 1)?;
    for (place, value) in values.iter().enumerate() {
        if place > 0 {
            out.text(" ");
        }
        show("", Sum(i128::from(value.0)), out);
    }
    Ok(())
}

/// `whole WEIGHT INTERVAL VALUE..`.
pub fn whole(
    alloc: Global,
    weight: &str,
    interval: &str,
    words: &[&str],
    out: &mut Answer,
) -> Result<(), Refusal> {
    let mut values = values(alloc, words)?;
    let whole = timer(&mut values, decimal(weight)?, number::<u32>(interval)?)?.whole();
    show("std ", whole.std, out);
    show(" upper ", whole.upper, out);
    show(" lower ", whole.lower, out);
    show(" count ", whole.count, out);
    show(" count_ps ", whole.count_ps, out);
    show(" sum ", whole.sum, out);
    show(" sum_squares ", whole.sum_squares, out);
    show(" mean ", whole.mean, out);
    show(" median ", whole.median, out);
    Ok(())
}

/// `pct THRESHOLD VALUE..`.
pub fn pct(
    alloc: Global,
    threshold: &str,
    words: &[&str],
    out: &mut Answer,
) -> Result<(), Refusal> {
    let threshold = decimal(threshold)?;
    if threshold.0 == 0 || threshold.0.unsigned_abs() > HUNDRED {
        return Err(Refusal::Condition);
    }
    let mut values = values(alloc, words)?;
    match timer(&mut values, Micro(0), 1)?.pct(threshold) {
        None => out.text("left out"),
        Some(part) => {
            out.count("count ", part.count);
            show(" mean ", part.mean, out);
            show(" edge ", part.edge, out);
            show(" sum ", part.sum, out);
            show(" sum_squares ", part.sum_squares, out);
            show(" at ", Sum(i128::from(part.threshold.0)), out);
        }
    }
    Ok(())
}

/// `bin FROM BELOW VALUE..`.
pub fn bin(
    alloc: Global,
    from: &str,
    below: &str,
    words: &[&str],
    out: &mut Answer,
) -> Result<(), Refusal> {
    let mut values = values(alloc, words)?;
    let count = timer(&mut values, Micro(0), 1)?.bin(decimal(from)?, limit(below)?);
    out.number(i128::from(count));
    Ok(())
}
