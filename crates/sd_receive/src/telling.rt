//! What a receiver tells the log of its datagrams.

use log::Log;
use sd_batch::{Batch, Counts};
use sd_event::{Full, bad_line, samples_dropped};
use sd_line::{Bad, Lines, Parts, Sample};
use sd_shard::Cause;

/// Why a piece is bad, in words.
fn cause_of(bad: Bad) -> &'static str {
    match bad {
        Bad::NoValue => "no value",
        Bad::NoType => "no type",
        Bad::UnknownType => "unknown type",
        Bad::Number(_) => "no number",
        Bad::Rate => "bad rate",
        Bad::NegativeTimer => "negative timer",
        Bad::Key(_) => "bad name",
        Bad::MemberLong => "member too long",
        Bad::ExtraField => "extra field",
    }
}

/// Tells of each bad piece of a line.
fn tell_pieces<L: Log>(log: &L, line: &[u8]) {
    let mut pieces = Lines::new(line);
    let mut sample = Sample::blank();
    while let Some(piece) = pieces.next_into(&mut sample) {
        if let Err(bad) = piece {
            bad_line(log, cause_of(bad), line);
        }
    }
}

/// Tells of each bad piece of a datagram that has so many.
pub(crate) fn tell_bad<L: Log>(log: &L, datagram: &[u8], bad: u64) {
    if bad == 0 {
        return;
    }
    let mut lines = Parts::new(datagram);
    while let Some(line) = lines.next() {
        tell_pieces(log, line);
    }
}

/// Tells of a line that is longer than a line may be.
pub(crate) fn tell_long<L: Log>(log: &L) {
    bad_line(log, "too long", b"");
}

/// Tells of the samples that a shard dropped of its run in a batch, where it dropped some: of the first one, with what was compared, and how
/// many there were.
pub(crate) fn tell_dropped<L: Log>(log: &L, batch: &Batch, home: u16, counts: Counts) {
    let Some(first) = counts.first_drop else {
        return;
    };
    if home >= batch.shards() {
        return;
    }
    let (table, used, limit) = match first.cause {
        Cause::NoRow { live, limit } => ("rows", u64::from(live), u64::from(limit)),
        Cause::NoEntry { entries, limit } => ("entries", entries, u64::from(limit)),
        Cause::NoSum { summed, limit } => ("sums", summed, limit),
        Cause::NoNumber { taken } => ("numbers", taken, u64::MAX),
    };
    let mut run = batch.run(home);
    for _before in 0..first.before {
        run.next();
    }
    if let Some(sample) = run.next() {
        let full = Full {
            shard: home,
            table,
            used,
            limit,
        };
        samples_dropped(log, counts.dropped, full, sample.key.as_slice());
    }
}
