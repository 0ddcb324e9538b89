ghost use Rattle.std.specs.Prelude.{◌≡◌, ℕ, ◌+◌, ◌*◌, ◌≤◌, ◌++◌, length, map, option_map, slice_get, IfSome, OnOk, OnErr, sum_by};
ghost use Rattle.sd_model_outside.specs.Outside.{HasFailedBehind, given};
ghost use Rattle.sd_model_shard.specs.Shard.{Numbers};
ghost use Rattle.sd_model_record.specs.Desk.{Facts};
ghost use Rattle.sd_model_outside.specs.Backend.{backends};
ghost use Rattle.sd_model_record.specs.Totals.{faults_name, known_before_end, total_line, totals_of, totals_text as lines_of};
ghost use Rattle.sd_desk.specs.Facts.{facts_view};
ghost use Rattle.sd_shard.specs.Shard.{numbers_in};
ghost use Rattle.sd_outside.specs.Backends.{at, kind_of};
ghost use Rattle.sd_admin.specs.Totals.{behind_faults, total_seen, totals_by, totals_view};
ghost use Rattle.sd_admin.specs.declared.totals.TheConstants.{TOTALS};

use crate::sums::{Sums, add_up};
use sd_decimal::{Line, write_whole};
use sd_desk::DeskFacts;
use sd_outside::{BACKEND_COUNT, BACKENDS, Failed, PerBackend, Sink, WriteFault, write_all};
use sd_shard::ShardBook;

/// How many totals stand before those of the backends' faults, and behind them.
const BEFORE_FAULTS: usize = 9;

const BEHIND_FAULTS: usize = 2;

/// How many totals there are.
pub const TOTALS: usize = BEFORE_FAULTS + BACKEND_COUNT + BEHIND_FAULTS;

/// How many totals are known before the end, where backends have outlets and where they have none.
pub fn known_totals(outlets: bool) -> usize
    ensures few { result ≤ TOTALS }
    ensures count { (all : (Numbers → ℕ) → ℕ) (facts : Facts) → result ≡ length (known_before_end outlets (totals_of all facts)) }
{
    if outlets {
        BEFORE_FAULTS + BEHIND_FAULTS
    } else {
        TOTALS
    }
}

/// A name, and the number that was counted under it.
#[derive(Clone, Copy, Debug, PartialEq, Eq)]
pub struct Total {
    pub name: &'static [u8],
    pub number: u128,
}

impl Total {
    fn of(name: &'static [u8], number: u128) -> Total
        ensures { total_seen result ≡ (name.now, number) }
    {
        Total { name, number }
    }
}

/// What a replay or a server counted, in whole numbers.
#[derive(Clone, Copy, Debug, PartialEq, Eq)]
pub struct Totals {
    pub packets: u128,
    pub lines: u128,
    pub bad: u128,
    pub taken: u128,
    pub dropped: u128,
    pub flushed: u128,
    pub held: u128,
    pub deleted: u128,
    pub rounds: u128,
    pub faults: PerBackend<u128>,
    pub repeater_faults: u128,
    pub admin_faults: u128,
}

impl Totals {
    /// The totals of shards with these numbers, and of a desk with these facts.
    pub fn new(books: &[ShardBook], facts: &DeskFacts) -> Totals
        requires { length books.now ≤ 16 }
        ensures { totals_view result ≡ totals_of (λ number. sum_by number (map numbers_in books.now)) (facts_view facts.now) }
    {
        Totals::of(&add_up(books), facts)
    }

    fn of(sums: &Sums, facts: &DeskFacts) -> Totals
        ensures { totals_view result ≡ totals_by sums.now (facts_view facts.now) }
    {
        Totals {
            packets: u128::from(facts.totals.packets),
            lines: u128::from(facts.totals.lines),
            bad: u128::from(facts.totals.bad),
            taken: sums.taken,
            dropped: sums.dropped,
            flushed: sums.flushed,
            held: sums.held,
            deleted: sums.deleted,
            rounds: u128::from(facts.rounds),
            faults: PerBackend::from_fn(
                |kind|
                    ensures { result ≡ at facts.entry.now.faults (kind_of kind) }
                { u128::from(*facts.faults.at(kind)) },
            ),
            repeater_faults: u128::from(facts.repeater_faults),
            admin_faults: u128::from(facts.admin_faults),
        }
    }

    /// The total at a place among those that are known before the end, counted from 0, or none behind the last.
    pub fn known_at(&self, outlets: bool, place: usize) -> Option<Total>
        ensures total { option_map total_seen result ≡ slice_get (known_before_end outlets (totals_view self.now)) place }
        ensures short { IfSome result (λ t. length t.name.now ≤ 15) }
    {
        if !outlets || place < BEFORE_FAULTS {
            return self.at(place);
        }
        self.behind_faults(place - BEFORE_FAULTS)
    }

    /// The total at a place, counted from 0, or none behind the last.
    pub fn at(&self, place: usize) -> Option<Total>
        ensures total { option_map total_seen result ≡ slice_get (totals_view self.now) place }
        ensures short { IfSome result (λ t. length t.name.now ≤ 15) }
    {
        match place {
            0 => Some(Total::of(b"packets", self.packets)),
            1 => Some(Total::of(b"lines", self.lines)),
            2 => Some(Total::of(b"bad", self.bad)),
            3 => Some(Total::of(b"taken", self.taken)),
            4 => Some(Total::of(b"dropped", self.dropped)),
            5 => Some(Total::of(b"flushed", self.flushed)),
            6 => Some(Total::of(b"held", self.held)),
            7 => Some(Total::of(b"deleted", self.deleted)),
            8 => Some(Total::of(b"rounds", self.rounds)),
            _ => self.behind_rounds(place - BEFORE_FAULTS),
        }
    }

    // Those of the backends' faults and behind them.
    fn behind_rounds(&self, place: usize) -> Option<Total>
        ensures total { option_map total_seen result ≡ slice_get (map (λ b. (faults_name b, at (self.now).faults b)) backends ++ behind_faults self.now) place }
        ensures short { IfSome result (λ t. length t.name.now ≤ 15) }
    {
        match BACKENDS.get(place) {
            Some(&kind) => Some(Total::of(kind.faults_name(), *self.faults.at(kind))),
            None => self.behind_faults(place - BACKEND_COUNT),
        }
    }

    // Those behind the backends' faults.
    fn behind_faults(&self, place: usize) -> Option<Total>
        ensures total { option_map total_seen result ≡ slice_get (behind_faults self.now) place }
        ensures short { IfSome result (λ t. length t.name.now ≤ 15) }
    {
        match place {
            0 => Some(Total::of(b"repeater_faults", self.repeater_faults)),
            1 => Some(Total::of(b"admin_faults", self.admin_faults)),
            _ => None,
        }
    }
}

/// Appends a line: the name, a space, the number and a newline.
pub fn push_total(name: &[u8], n: u128, line: &mut Line)
    requires { length line.old.items + length name.now + 41 ≤ 1024 }
    ensures text { line.new.items ≡ line.old.items ++ total_line (name.now, n) }
    ensures len { length line.new.items ≤ length line.old.items + length name.now + 41 }
{
    line.try_extend_from_slice(name).unwrap();
    line.push(b' ');
    write_whole(n, line);
    line.push(b'\n');
}

/// The lines of the totals.
pub fn totals_text(totals: &Totals) -> Line
    ensures text { result.items ≡ lines_of (totals_view totals.now) }
    ensures len { length result.items ≤ 56 * TOTALS }
{
    let mut line = Line::new();
    for place in 0..TOTALS {
        if let Some(total) = totals.at(place) {
            push_total(total.name, total.number, &mut line);
        }
    }
    line
}

/// Writes a line, or lines.
fn write_text<O: Sink>(text: &Line, output: &mut O) -> Result<(), WriteFault>
    ensures ok { OnOk result (O.seen output.new ≡ given text.now.items (O.seen output.old)) }
    ensures failed { OnErr result (HasFailedBehind text.now.items (O.seen output.old) (O.seen output.new)) }
{
    match write_all(output, text.as_slice()) {
        Ok(()) => Ok(()),
        Err(Failed) => Err(WriteFault),
    }
}

/// Writes a line of totals: the name, a space, the number and a newline.
///
/// # Errors
///
/// `WriteFault` where the sink failed. Then a prefix of the line was written.
pub fn write_total<O: Sink>(name: &[u8], n: u128, output: &mut O) -> Result<(), WriteFault>
    requires { length name.now ≤ 255 }
    ensures ok { OnOk result (O.seen output.new ≡ given (total_line (name.now, n)) (O.seen output.old)) }
    ensures failed { OnErr result (HasFailedBehind (total_line (name.now, n)) (O.seen output.old) (O.seen output.new)) }
{
    let mut line = Line::new();
    push_total(name, n, &mut line);
    write_text(&line, output)
}

/// Writes the totals.
///
/// # Errors
///
/// `WriteFault` where the sink failed. Then a prefix of the text was written.
pub fn write_totals<O: Sink>(totals: &Totals, output: &mut O) -> Result<(), WriteFault>
    ensures ok { OnOk result (O.seen output.new ≡ given (lines_of (totals_view totals.now)) (O.seen output.old)) }
    ensures failed { OnErr result (HasFailedBehind (lines_of (totals_view totals.now)) (O.seen output.old) (O.seen output.new)) }
{
    write_text(&totals_text(totals), output)
}
