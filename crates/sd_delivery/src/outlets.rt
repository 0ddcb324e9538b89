//! Texts that go to the outlets of the backends.
ghost use Rattle.std.specs.Prelude.{◌≡◌, ◌≤◌, false, [], ◌∷◌, length, min};
ghost use Rattle.sd_model_outside.specs.Outside.{last_count};
ghost use Rattle.sd_record.specs.Record.{record_view, room_of, SameScratch};
ghost use Rattle.sd_outlet.specs.OutBuf.{IsNewBuf, size_in, text_in};
ghost use Rattle.sd_outlet.specs.Feed.{IsFeedOf, is_out};
ghost use Rattle.sd_delivery.specs.Offers.{AfterOffer};
ghost use Rattle.sd_delivery.specs.Leads.{IsLeadReady, Offers, StopsOne};

use crate::delivery::Delivery;
use log::Log;
use sd_console::ConsoleText;
use sd_desk::{Mark, RoundMarks};
use sd_edge::Streak;
use sd_event::text_skipped;
use sd_graphite::GraphiteText;
use sd_outlet::{Feed, OutBuf, Outlet, QueueFull, buffers_keep_what_fits};
use sd_outside::{BackendKind, CountSink};
use sd_plan::Names;
use sd_record::{Record, RecordText};
use std::sync::Wait;

// How many sends a feed may make.
const MOST_SENDS: u64 = 1 << 61;

/// An outlet, the feed on which its texts are sent, and how many were skipped in a row. To that of a backend that isn't used nothing
/// is sent.
#[derive(Drop)]
pub struct Lead<'a> {
    used: bool,
    outlet: &'a Outlet,
    feed: Feed,
    skipped_in_row: Streak,
}

/// The lead of each backend.
#[derive(Drop)]
pub struct Leads<'a> {
    pub graphite: Lead<'a>,
    pub console: Lead<'a>,
}

impl<'a> Lead<'a> {
    ghost use Rattle.sd_outlet.specs.Feed.{IsNew, sent};
    ghost use Rattle.sd_delivery.specs.Leads.{feed_in, is_used, outlet_in};

    /// The lead of a new feed. Where the backend isn't used, the feed is stopped, so that the outlet's worker ends at once.
    pub fn new(used: bool, outlet: &'a Outlet, feed: Feed) -> Lead<'a>
        requires { IsFeedOf outlet.now feed × IsNew feed }
        ensures ready { IsLeadReady result }
        ensures used { is_used result ≡ used }
        ensures outlet { outlet_in result ≡ outlet.entry.now }
        ensures none { sent (feed_in result) ≡ [] }
    {
        let mut lead = Lead {
            used,
            outlet,
            feed,
            skipped_in_row: Streak::new(),
        };
        if !used {
            lead.stop();
        }
        lead
    }

    /// The feed.
    pub fn into_feed(self) -> Feed
        ensures { result ≡ feed_in self.entry }
    {
        self.feed
    }

    // Stops the feed.
    fn stop(&mut self)
        requires ready { IsLeadReady self.old }
        ensures ready { IsLeadReady self.new }
        ensures stops { StopsOne self.old self.new }
    {
        self.outlet.stop(&mut self.feed);
    }
}

/// Why a text wasn't queued.
#[derive(Clone, Copy, Debug, PartialEq, Eq)]
pub enum Skip {
    /// It is longer than a buffer: so many bytes, up to 2^64 - 1.
    Long { len: u64 },
    /// No buffer was free, or the queue was full.
    Full,
    /// The feed has made so many sends, which are all that it may.
    Spent { sends: u64 },
}

impl Skip {
    // The cause in words.
    fn cause(self) -> &'static str {
        match self {
            Skip::Long { .. } => "longer than outletBytes",
            Skip::Full => "no free outlet",
            Skip::Spent { .. } => "no send left",
        }
    }
}

// How many bytes the text of a record has, up to 2^64 - 1.
fn len_of<T: RecordText>(form: &T, rec: &mut Record<'_>) -> u64
    ensures len { result ≡ min (length (T.text_of form.now (record_view rec.old))) last_count }
    ensures record { record_view rec.new ≡ record_view rec.old }
    ensures room { room_of rec.new ≡ room_of rec.old }
    ensures same_scratch { SameScratch rec.new rec.old }
{
    let mut sink = CountSink::new();
    let _ = form.write(rec, &mut sink);
    sink.count()
}

// Writes the text of a record, which fits, into a new buffer.
fn fill<T: RecordText>(form: &T, rec: &mut Record<'_>, buf: &mut OutBuf)
    requires new { IsNewBuf buf.old }
    requires fits { length (T.text_of form.now (record_view rec.old)) ≤ size_in buf.old }
    ensures text { text_in buf.new ≡ T.text_of form.now (record_view rec.old) }
    ensures size { size_in buf.new ≡ size_in buf.old }
    ensures record { record_view rec.new ≡ record_view rec.old }
    ensures room { room_of rec.new ≡ room_of rec.old }
    ensures same_scratch { SameScratch rec.new rec.old }
{
    let _ = form.write(rec, buf);
    buffers_keep_what_fits();
}

// Offers the text of a record to an outlet: counts it, and where it fits and there is a buffer for it, sends it.
fn offer_text<T: RecordText, R: Wait>(
    rt: &R,
    form: &T,
    rec: &mut Record<'_>,
    outlet: &Outlet,
    feed: &mut Feed,
) -> Result<(), Skip>
    requires feed { IsFeedOf outlet.now feed.old }
    requires none_out { is_out feed.old ≡ false }
    ensures feed { IsFeedOf outlet.now feed.new }
    ensures none_out { is_out feed.new ≡ false }
    ensures offered { AfterOffer result (T.text_of form.now (record_view rec.old)) outlet.now feed.old feed.new }
    ensures record { record_view rec.new ≡ record_view rec.old }
    ensures room { room_of rec.new ≡ room_of rec.old }
    ensures same_scratch { SameScratch rec.new rec.old }
{
    let len = len_of(form, rec);
    if len > u64::from(outlet.bytes()) {
        return Err(Skip::Long { len });
    }
    let sends = feed.sends();
    if sends >= MOST_SENDS {
        return Err(Skip::Spent { sends });
    }
    let Some(mut buf) = outlet.start(rt, feed) else {
        return Err(Skip::Full);
    };
    fill(form, rec, &mut buf);
    match outlet.send(rt, feed, buf) {
        Ok(()) => Ok(()),
        Err(QueueFull) => Err(Skip::Full),
    }
}

// Tells the log of a text that was skipped: of those in a row ever more seldom one.
fn tell<L: Log>(log: &L, backend: BackendKind, in_row: &mut Streak, offered: Result<(), Skip>) {
    match offered {
        Ok(()) => {
            in_row.recover();
        }
        Err(skip) => {
            if let Some(texts) = in_row.fail() {
                text_skipped(log, backend.name(), texts, skip.cause());
            }
        }
    }
}

// Offers the text of a record where the backend is used.
fn offer<T: RecordText, R: Wait + Log>(
    rt: &R,
    form: &T,
    rec: &mut Record<'_>,
    backend: BackendKind,
    lead: &mut Lead<'_>,
)
    requires ready { IsLeadReady lead.old }
    ensures ready { IsLeadReady lead.new }
    ensures offers { Offers (T.text_of form.now (record_view rec.old) ∷ []) lead.old lead.new }
    ensures record { record_view rec.new ≡ record_view rec.old }
    ensures room { room_of rec.new ≡ room_of rec.old }
    ensures same_scratch { SameScratch rec.new rec.old }
{
    if !lead.used {
        return;
    }
    let offered = offer_text(rt, form, rec, lead.outlet, &mut lead.feed);
    tell(rt, backend, &mut lead.skipped_in_row, offered);
}

/// Texts that go to the outlets of the backends that are used, and wait for no backend. One that is longer than a buffer of its
/// outlet, that finds no buffer free, or whose feed has made all its sends, is skipped, which the log is told. The marks are those of
/// backends that aren't used. At the end the feeds are stopped.
impl Delivery for Leads<'_> {
    ghost use Rattle.sd_delivery.specs.Leads.{AreReadyLeads, GivesOutlets, StopsLeads};

    ghost is_ready = { AreReadyLeads };

    ghost gives = { GivesOutlets };

    ghost ends = { StopsLeads };

    fn give<R: Wait + Log>(&mut self, rt: &R, rec: &mut Record<'_>, names: &Names) -> RoundMarks {
        offer(
            rt,
            &GraphiteText { names },
            rec,
            BackendKind::Graphite,
            &mut self.graphite,
        );
        offer(
            rt,
            &ConsoleText,
            rec,
            BackendKind::Console,
            &mut self.console,
        );
        RoundMarks::of(Mark::NotUsed)
    }

    fn end(&mut self) {
        self.graphite.stop();
        self.console.stop();
    }
}
