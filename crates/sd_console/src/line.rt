ghost use Rattle.std.specs.Prelude.{◌≡◌, ◌≤◌, ◌∷◌, ◌++◌, [], length, map, codes, decimal};
ghost use Rattle.sd_model_record.specs.Backends.{console_count};
ghost use Rattle.sd_record.specs.Record.{record_view};
ghost use Rattle.sd_console.specs.Texts.{count_texts};

use sd_decimal::Line;
use sd_record::{Record, push_text, push_whole};

/// The line of a word and a Unix second.
pub(crate) fn second_line(word: &[u8], ts: u64) -> Line
    requires { length word.now ≤ 64 }
    ensures { result.items ≡ word.now ++ 32 ∷ decimal ts ++ 10 ∷ [] }
{
    let mut line = Line::new();
    push_text(word, &mut line);
    push_whole(ts, &mut line);
    line.push(b'\n');
    line
}

/// The line of one of the server's own counts.
fn count_line(name: &[u8], count: u64) -> Line
    requires { length name.now ≤ 64 }
    ensures { result.items ≡ console_count name.now count }
{
    let mut line = Line::new();
    push_text(b"tail ", &mut line);
    push_text(name, &mut line);
    push_whole(count, &mut line);
    line.push(b'\n');
    line
}

/// The lines of the server's own counts.
pub(crate) fn count_lines(rec: &Record<'_>) -> [Line; 5]
    ensures { map (λ line. line.items) result ≡ count_texts (record_view rec.now) }
{
    let tally = rec.tally();
    [
        count_line(b"bad_lines_seen", tally.bad),
        count_line(b"packets_received", tally.packets),
        count_line(b"metrics_received", tally.lines),
        count_line(b"samples_dropped", tally.dropped),
        count_line(b"numStats", rec.rows() as u64),
    ]
}
