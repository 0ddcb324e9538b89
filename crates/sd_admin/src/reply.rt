ghost use Rattle.std.specs.Prelude.{◌≡◌, OnOk, OnErr};
ghost use Rattle.sd_model_outside.specs.Outside.{HasFailedBehind, given};
ghost use Rattle.sd_model_record.specs.Replies.{reply_text, reply_lines};
ghost use Rattle.sd_admin.specs.Order.{IsInOrder};
ghost use Rattle.sd_admin.specs.Reply.{reply_view};

use crate::command::AdminFault;
use crate::known_totals;
use crate::reply_lines::{
    config_line, end_line, fault_line, gone_line, health_line, rows_line, stats_line, totals_line,
};
use sd_config::{LineText, ReplyLine, Settings, config_line_count, write_lines};
use sd_desk::DeskFacts;
use sd_key::{Kind, Pattern};
use sd_outside::{Failed, Sink, WriteFault};
use sd_shard::{Books, Dump, Keys};

/// What a reply tells. The reply to a deletion is `Gone` for each of its names, and `Finish`. Each other form is a whole reply.
#[derive(Clone, Copy, Debug)]
pub enum Reply<'a> {
    /// To `stats`, at this Unix second.
    Stats {
        facts: &'a DeskFacts,
        now: u64,
    },
    /// To `totals`: what the desk tells of itself, and the numbers of all shards, in order. With outlets, the faults of backends are
    /// only known at the end, and left out.
    Totals {
        outlets: bool,
        facts: &'a DeskFacts,
        books: &'a Books,
    },
    /// To `counters`, `timers` or `gauges`: the rows of all shards, in the order of the bytes of their keys.
    Rows {
        kind: Kind,
        dump: &'a Dump,
    },
    /// To a name of a deletion: the keys of the rows that went in all shards, in the order of their bytes.
    Gone {
        pattern: &'a Pattern,
        keys: &'a Keys,
    },
    /// The end of a reply to a deletion, behind the last name.
    Finish,
    /// To `health`.
    Health {
        up: bool,
    },
    /// To `config`.
    Config {
        settings: &'a Settings,
    },
    /// To a line that is no command.
    Fault {
        fault: AdminFault,
    },
}

impl LineText for Reply<'_> {
    ghost lines = { λ reply. reply_lines (reply_view reply) };

    fn line_count(&self) -> usize {
        match self {
            Reply::Stats { facts: _, now: _ } => 5,
            Reply::Totals {
                outlets,
                facts: _,
                books,
            } => known_totals(*outlets) + books.len() + 2,
            Reply::Rows { kind: _, dump } => dump.len() + 2,
            Reply::Gone { pattern: _, keys } => keys.len().max(1),
            Reply::Finish => 2,
            Reply::Health { up: _ } | Reply::Fault { fault: _ } => 1,
            Reply::Config { settings } => config_line_count(settings) + 2,
        }
    }

    fn line(&self, place: usize) -> Option<ReplyLine> {
        match self {
            Reply::Stats { facts, now } => stats_line(facts, *now, place),
            Reply::Totals {
                outlets,
                facts,
                books,
            } => totals_line(*outlets, facts, books, place),
            Reply::Rows { kind, dump } => rows_line(*kind, dump, place),
            Reply::Gone { pattern, keys } => gone_line(pattern, keys, place),
            Reply::Finish => end_line(place),
            Reply::Health { up } => health_line(*up, place),
            Reply::Config { settings } => config_line(settings, place),
            Reply::Fault { fault } => fault_line(*fault, place),
        }
    }
}

/// Writes a reply. No memory is taken.
///
/// # Errors
///
/// `WriteFault` where the sink failed. Then a prefix of the reply was appended.
pub fn write_reply<K: Sink>(ask: &Reply<'_>, sink: &mut K) -> Result<(), WriteFault>
    requires { IsInOrder (reply_view ask.now) }
    ensures ok { OnOk result (K.seen sink.new ≡ given (reply_text (reply_view ask.now)) (K.seen sink.old)) }
    ensures failed { OnErr result (HasFailedBehind (reply_text (reply_view ask.now)) (K.seen sink.old) (K.seen sink.new)) }
{
    match write_lines(ask, sink) {
        Ok(()) => Ok(()),
        Err(Failed) => Err(WriteFault),
    }
}
