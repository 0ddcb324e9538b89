ghost use Rattle.std.specs.Prelude.{◌≡◌, ◌+◌, ◌<◌, ◌≤◌, ◌∷◌, ◌++◌, [], length, map, slice_get, decimal, codes, if◌then◌else◌, sum_by};
ghost use Rattle.std.specs.Option.{option_map};
ghost use Rattle.sd_model_settings.specs.ConfigText.{config_lines, config_line};
ghost use Rattle.sd_model_record.specs.Replies.{end_lines, stats_lines, shown_value, gone_lines, fault_line, shard_lines};
ghost use Rattle.sd_key.specs.Kind.{kind_of};
ghost use Rattle.sd_model_record.specs.Totals.{known_before_end, total_line, totals_of};
ghost use Rattle.sd_shard.specs.Dump.{dump_row_of, rows_of};
ghost use Rattle.sd_shard.specs.Shard.{numbers_in};
ghost use Rattle.sd_admin.specs.Totals.{totals_view};
ghost use Rattle.sd_desk.specs.Facts.{facts_view};
ghost use Rattle.sd_admin.specs.Command.{fault_view};

use crate::command::AdminFault;
use crate::{Totals, known_totals, push_total};
use sd_config::{ReplyLine, Settings, config_line_count, line_of, number_line, push_text};
use sd_decimal::{Line, write, write_whole};
use sd_desk::DeskFacts;
use sd_key::{Kind, Pattern};
use sd_shard::{Books, Dump, DumpRow, Keys, ShardBook};

/// The line of a text, which ends with a newline.
fn text_line(text: &[u8]) -> ReplyLine
    requires { length text.now ≤ 4096 }
    ensures { result.items ≡ text.now }
{
    let mut line = ReplyLine::new();
    push_text(text, &mut line);
    line
}

/// A line that stands alone, at a place.
fn alone(line: ReplyLine, place: usize) -> Option<ReplyLine>
    ensures { option_map (λ l. l.items) result ≡ slice_get (line.items ∷ []) place }
{
    (place == 0).then_some(line)
}

/// The line of the end of a reply at a place.
pub fn end_line(place: usize) -> Option<ReplyLine>
    ensures { option_map (λ l. l.items) result ≡ slice_get end_lines place }
{
    match place {
        0 => Some(text_line(b"END\n")),
        1 => Some(text_line(b"\n")),
        _ => None,
    }
}

/// The line of the reply to `stats` at a place.
pub(crate) fn stats_line(facts: &DeskFacts, now: u64, place: usize) -> Option<ReplyLine>
    ensures { option_map (λ l. l.items) result ≡ slice_get (stats_lines (facts_view facts.now) now ++ end_lines) place }
{
    match place {
        0 => Some(number_line(b"uptime", now.saturating_sub(facts.start))),
        1 => Some(number_line(b"messages.last_msg_seen", now.saturating_sub(facts.last))),
        2 => Some(number_line(b"messages.bad_lines_seen", facts.totals.bad)),
        _ => end_line(place - 3),
    }
}

/// The line at a place of the totals that are known before the end.
fn total_line(totals: &Totals, outlets: bool, place: usize) -> Option<ReplyLine>
    ensures { option_map (λ l. l.items) result ≡ slice_get (map total_line (known_before_end outlets (totals_view totals.now))) place }
{
    let total = totals.known_at(outlets, place)?;
    let mut line = Line::new();
    push_total(total.name, total.number, &mut line);
    Some(text_line(line.as_slice()))
}

/// Appends a word and a number.
fn push_number(word: &[u8], n: u128, line: &mut Line)
    requires { length line.old.items + length word.now + 39 ≤ 1024 }
    ensures text { line.new.items ≡ line.old.items ++ word.now ++ decimal n }
    ensures len { length line.new.items ≤ length line.old.items + length word.now + 39 }
{
    line.try_extend_from_slice(word).unwrap();
    write_whole(n, line);
}

/// The line of a shard by its number.
fn shard_line(i: usize, book: &ShardBook) -> ReplyLine
    ensures { result.items ≡ (codes "shard " ++ decimal i ++ codes " rows " ++ decimal (numbers_in book.now).rows ++ codes " held " ++ decimal (numbers_in book.now).held ++ 10 ∷ []) }
{
    let mut line = Line::new();
    push_number(b"shard ", i as u128, &mut line);
    push_number(b" rows ", u128::from(book.rows), &mut line);
    push_number(b" held ", u128::from(book.held), &mut line);
    line.push(b'\n');
    text_line(line.as_slice())
}

/// The line of the reply to `totals` at a place.
pub(crate) fn totals_line(
    outlets: bool,
    facts: &DeskFacts,
    books: &Books,
    place: usize,
) -> Option<ReplyLine>
    ensures { option_map (λ l. l.items) result ≡ slice_get ((map total_line (known_before_end outlets (totals_of (λ number. sum_by number (map numbers_in books.now.items)) (facts_view facts.now))) ++ shard_lines 0 (map numbers_in books.now.items)) ++ end_lines) place }
{
    let totals = known_totals(outlets);
    if place < totals {
        return total_line(&Totals::new(books, facts), outlets, place);
    }
    let i = place - totals;
    match books.get(i) {
        Some(book) => Some(shard_line(i, book)),
        None => end_line(i - books.len()),
    }
}

/// What stands behind the key of a row.
fn row_value(kind: Kind, row: &DumpRow) -> Line
    ensures value { result.items ≡ shown_value (kind_of kind) (dump_row_of row.now) }
    ensures short { length result.items ≤ 81 }
{
    let mut value = Line::new();
    if kind == Kind::Timer {
        write_whole(u128::from(row.samples), &mut value);
        value.push(b' ');
    }
    write(row.amount, &mut value);
    value
}

/// The line of a row.
fn row_line(kind: Kind, row: &DumpRow) -> ReplyLine
    ensures { result.items ≡ config_line (dump_row_of row.now).key (shown_value (kind_of kind) (dump_row_of row.now)) }
{
    line_of(row.key.as_slice(), row_value(kind, row).as_slice())
}

/// The line of the reply to `counters`, `timers` or `gauges` at a place.
pub(crate) fn rows_line(kind: Kind, dump: &Dump, place: usize) -> Option<ReplyLine>
    ensures { option_map (λ l. l.items) result ≡ slice_get (map (λ row. config_line row.key (shown_value (kind_of kind) row)) (rows_of dump.now) ++ end_lines) place }
{
    if place < dump.len() {
        Some(row_line(kind, dump.get(place)))
    } else {
        end_line(place - dump.len())
    }
}

/// The line of a name of a deletion that deleted nothing.
fn missing_line(name: &Pattern) -> ReplyLine
    ensures { slice_get (gone_lines name.now []) 0 ≡ Some result.items }
{
    let mut line = ReplyLine::new();
    push_text(b"metric ", &mut line);
    push_text(name.as_slice(), &mut line);
    push_text(b" not found\n", &mut line);
    line
}

/// The line of what a name of a deletion deleted, at a place.
pub(crate) fn gone_line(name: &Pattern, keys: &Keys, place: usize) -> Option<ReplyLine>
    ensures { option_map (λ l. l.items) result ≡ slice_get (gone_lines name.now keys.now.items) place }
{
    if keys.len() == 0 {
        alone(missing_line(name), place)
    } else if place < keys.len() {
        Some(line_of(b"deleted", keys.get(place).as_slice()))
    } else {
        None
    }
}

/// The line of the health at a place.
pub(crate) fn health_line(up: bool, place: usize) -> Option<ReplyLine>
    ensures { option_map (λ l. l.items) result ≡ slice_get (config_line (codes "health") (if up then codes "up" else codes "down") ∷ []) place }
{
    if up {
        alone(line_of(b"health", b"up"), place)
    } else {
        alone(line_of(b"health", b"down"), place)
    }
}

/// The line of the reply to `config` at a place.
pub(crate) fn config_line(settings: &Settings, place: usize) -> Option<ReplyLine>
    ensures { option_map (λ l. l.items) result ≡ slice_get (config_lines settings.now ++ end_lines) place }
{
    let lines = config_line_count(settings);
    if place < lines {
        sd_config::config_line(settings, place)
    } else {
        end_line(place - lines)
    }
}

/// The line of a fault at a place.
pub(crate) fn fault_line(fault: AdminFault, place: usize) -> Option<ReplyLine>
    ensures { option_map (λ l. l.items) result ≡ slice_get (fault_line (fault_view fault) ∷ []) place }
{
    let line = match fault {
        AdminFault::UnknownWord => text_line(b"ERROR unknown command\n"),
        AdminFault::MissingName => text_line(b"ERROR missing name\n"),
        AdminFault::TooLong => text_line(b"ERROR line too long\n"),
    };
    alone(line, place)
}
