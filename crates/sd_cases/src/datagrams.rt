use sd_case::{Answer, Refusal, bytes_of, kind_word};
use sd_decimal::NumberFault;
use sd_key::KeyFault;
use sd_line::{Bad, Lines, Sample};
use std::alloc::Global;

/// `pieces DATAGRAM`: the sample of each piece, or why there is none.
pub(crate) fn pieces_of(alloc: Global, datagram: &str, out: &mut Answer) -> Result<(), Refusal> {
    show_pieces(&bytes_of(alloc, datagram)?, out);
    Ok(())
}

/// Appends what each piece of a datagram is, and `end`.
fn show_pieces(datagram: &[u8], out: &mut Answer) {
    let mut lines = Lines::new(datagram);
    for _ in 0..=datagram.len() {
        match lines.next() {
            Some(Ok(sample)) => show_sample(&sample, out),
            Some(Err(bad)) => show_bad(bad, out),
            None => break,
        }
    }
    // the end is asked for once more
    out.text(if lines.next().is_none() {
        "end"
    } else {
        "more"
    });
}

/// Appends why a piece has no sample.
fn show_bad(bad: Bad, out: &mut Answer) {
    match bad {
        Bad::NoValue => out.text("no value"),
        Bad::NoType => out.text("no type"),
        Bad::UnknownType => out.text("unknown type"),
        Bad::Number(NumberFault::Shape) => out.text("number: shape"),
        Bad::Number(NumberFault::Range) => out.text("number: range"),
        Bad::Rate => out.text("rate"),
        Bad::NegativeTimer => out.text("negative timer"),
        Bad::Key(KeyFault::Empty) => out.text("key: empty"),
        Bad::Key(KeyFault::Long { len }) => out.count("key: long ", len as u64),
        Bad::MemberLong => out.text("member long"),
        Bad::ExtraField => out.text("extra field"),
    }
    out.text("; ");
}

/// Appends the fields of a sample: its kind, key, value and rate, the word `signed` where it is, and its member,
/// where it has one.
fn show_sample(sample: &Sample, out: &mut Answer) {
    out.text(kind_word(sample.kind));
    out.text(" ");
    out.bytes(sample.key.as_slice());
    out.text(" ");
    out.number(i128::from(sample.value.0));
    out.text(" @");
    out.number(i128::from(sample.rate.0));
    if sample.signed {
        out.text(" signed");
    }
    if !sample.member.is_empty() {
        out.text(" member ");
        out.bytes(sample.member.as_slice());
    }
    out.text("; ");
}
