use sd_case::{Answer, Refusal, bytes_of, number};
use sd_decimal::{
    Line, Micro, NumberFault, Sum, per_second, ratio, read, root, weigh, write, write_whole,
};
use std::alloc::Global;

// the largest total per second
const LARGEST_TOTAL: u128 = 10_000_000_000_000_000_000_000_000_000_000_000;

// the largest total that is divided
const LARGEST_RATIO: u128 = 110_000_000_000_000_000_000_000_000_000_000_000_000;

// the largest magnitude of a value
const LARGEST_VALUE: u64 = 1_000_000_000_000_000_000;

// the largest rate
const LARGEST_RATE: i64 = 1_000_000_000;

/// `read TEXT`: the millionths that a text writes.
pub(crate) fn read_text(alloc: Global, text: &str, out: &mut Answer) -> Result<(), Refusal> {
    match read(&bytes_of(alloc, text)?) {
        Ok(value) => out.number(i128::from(value.0)),
        Err(NumberFault::Shape) => out.text("fault: shape"),
        Err(NumberFault::Range) => out.text("fault: range"),
    }
    Ok(())
}

/// `weigh VALUE RATE`, in millionths.
pub(crate) fn weigh_value(value: &str, rate: &str, out: &mut Answer) -> Result<(), Refusal> {
    let value = number::<i64>(value)?;
    let rate = number::<i64>(rate)?;
    if value.unsigned_abs() > LARGEST_VALUE || rate < 1 || rate > LARGEST_RATE {
        return Err(Refusal::Condition);
    }
    out.number(weigh(Micro(value), Micro(rate)).0);
    Ok(())
}

/// `per_second TOTAL INTERVAL`, in millionths and milliseconds.
pub(crate) fn total_per_second(
    total: &str,
    interval: &str,
    out: &mut Answer,
) -> Result<(), Refusal> {
    let total = number::<i128>(total)?;
    let interval = number::<u32>(interval)?;
    if interval == 0 || total.unsigned_abs() > LARGEST_TOTAL {
        return Err(Refusal::Condition);
    }
    out.number(per_second(Sum(total), interval).0);
    Ok(())
}

/// `ratio TOTAL DIVISOR`, in millionths.
pub(crate) fn ratio_of(total: &str, divisor: &str, out: &mut Answer) -> Result<(), Refusal> {
    let total = number::<i128>(total)?;
    let divisor = number::<u64>(divisor)?;
    if divisor == 0 || total.unsigned_abs() > LARGEST_RATIO {
        return Err(Refusal::Condition);
    }
    out.number(ratio(Sum(total), divisor).0);
    Ok(())
}

/// `root SQUARE`.
pub(crate) fn root_of(square: &str, out: &mut Answer) -> Result<(), Refusal> {
    out.number(i128::from(root(number::<u128>(square)?)));
    Ok(())
}

/// `write VALUE`: the text of a number of millionths.
pub(crate) fn text_of(value: &str, out: &mut Answer) -> Result<(), Refusal> {
    let mut line = Line::new();
    write(Sum(number::<i128>(value)?), &mut line);
    out.bytes(line.as_slice());
    Ok(())
}

/// `write_whole NUMBER`: its digits.
pub(crate) fn whole_text_of(whole: &str, out: &mut Answer) -> Result<(), Refusal> {
    let mut line = Line::new();
    write_whole(number::<u128>(whole)?, &mut line);
    out.bytes(line.as_slice());
    Ok(())
}
