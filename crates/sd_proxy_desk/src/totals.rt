ghost use Rattle.std.specs.Prelude.{◌≡◌, ◌+◌, ◌≤◌, ◌^◌, [], ◌∷◌, ◌++◌, codes, length, OnOk, OnErr};
ghost use Rattle.sd_model_outside.specs.Outside.{HasFailedBehind, given};
ghost use Rattle.sd_model_record.specs.Desk.{counted};
ghost use Rattle.sd_model_record.specs.Totals.{total_line, totals_text};

use crate::route::Route;
use sd_decimal::{Line, write_whole};
use sd_outside::{Failed, Sink, WriteFault, write_all};

/// What a proxy counted, each number up to 2^63: datagrams; lines, those that were bad, those that were sent, those that had no
/// owner, and those of packets whose sends failed.
#[derive(Clone, Copy, Debug, PartialEq, Eq)]
pub struct ProxyTotals {
    pub packets: u64,
    pub lines: u64,
    pub bad: u64,
    pub sent: u64,
    pub unowned: u64,
    pub send_faults: u64,
    ghost few_packets: { packets ≤ 2 ^ 63 },
    ghost few_lines: { lines ≤ 2 ^ 63 },
    ghost few_bad: { bad ≤ 2 ^ 63 },
    ghost few_sent: { sent ≤ 2 ^ 63 },
    ghost few_unowned: { unowned ≤ 2 ^ 63 },
    ghost few_send_faults: { send_faults ≤ 2 ^ 63 },
}

/// Where counts stop.
const LAST_COUNT: u64 = 1 << 63;

/// A count after so many more, up to its end.
pub(crate) fn raised(count: u64, more: u64) -> u64
    ensures { result ≡ counted count more }
{
    count.saturating_add(more).min(LAST_COUNT)
}

/// Appends a line: the name, a space, the number and a newline.
fn push_total(name: &[u8], count: u64, line: &mut Line)
    requires { length line.old.items + length name.now + 41 ≤ 1024 }
    ensures text { line.new.items ≡ line.old.items ++ total_line (name.now, count) }
    ensures len { length line.new.items ≤ length line.old.items + length name.now + 41 }
{
    line.try_extend_from_slice(name).unwrap();
    line.push(b' ');
    write_whole(u128::from(count), line);
    line.push(b'\n');
}

impl ProxyTotals {
    ghost use Rattle.sd_model_proxy.specs.Routes.{add_totals, no_totals, totals_by};
    ghost use Rattle.sd_proxy_desk.specs.Views.{route_view, totals_of_route, totals_view};

    /// Nothing was counted.
    pub fn none() -> ProxyTotals
        ensures { totals_view result ≡ no_totals }
    {
        ProxyTotals {
            packets: 0,
            lines: 0,
            bad: 0,
            sent: 0,
            unowned: 0,
            send_faults: 0,
        }
    }

    /// Counts a datagram.
    pub fn add_packet(&mut self)
        ensures { totals_view self.new ≡ add_totals (totals_view self.old) (totals_by [] 1 0 [] (λ place. [])) }
    {
        self.packets = raised(self.packets, 1);
    }

    /// Counts a line that is too long, which is bad.
    pub fn add_long(&mut self)
        ensures { totals_view self.new ≡ add_totals (totals_view self.old) (totals_by [] 0 1 [] (λ place. [])) }
    {
        self.lines = raised(self.lines, 1);
        self.bad = raised(self.bad, 1);
    }

    /// Counts a line, by where it goes.
    pub fn add_line(&mut self, goes: Route)
        ensures { totals_view self.new ≡ add_totals (totals_view self.old) (totals_of_route (route_view goes)) }
    {
        self.lines = raised(self.lines, 1);
        match goes {
            Route::Bad => self.bad = raised(self.bad, 1),
            Route::Unowned => self.unowned = raised(self.unowned, 1),
            Route::Node(_) => {}
        }
    }

    /// Counts lines that were sent.
    pub fn add_sent(&mut self, lines: u64)
        ensures { totals_view self.new ≡ add_totals (totals_view self.old) ((codes "sent", lines) ∷ []) }
    {
        self.sent = raised(self.sent, lines);
    }

    /// Counts lines whose packet's send failed.
    pub fn add_not_sent(&mut self, lines: u64)
        ensures { totals_view self.new ≡ add_totals (totals_view self.old) ((codes "send_faults", lines) ∷ []) }
    {
        self.send_faults = raised(self.send_faults, lines);
    }

    /// What both counted together.
    pub fn and(self, more: ProxyTotals) -> ProxyTotals
        ensures { totals_view result ≡ add_totals (totals_view self) (totals_view more) }
    {
        ProxyTotals {
            packets: raised(self.packets, more.packets),
            lines: raised(self.lines, more.lines),
            bad: raised(self.bad, more.bad),
            sent: raised(self.sent, more.sent),
            unowned: raised(self.unowned, more.unowned),
            send_faults: raised(self.send_faults, more.send_faults),
        }
    }

    /// The lines of the totals.
    fn text(&self) -> Line
        ensures { result.items ≡ totals_text (totals_view self.now) }
    {
        let mut line = Line::new();
        push_total(b"packets", self.packets, &mut line);
        push_total(b"lines", self.lines, &mut line);
        push_total(b"bad", self.bad, &mut line);
        push_total(b"sent", self.sent, &mut line);
        push_total(b"unowned", self.unowned, &mut line);
        push_total(b"send_faults", self.send_faults, &mut line);
        line
    }

    /// Writes the totals, a line for each.
    ///
    /// # Errors
    ///
    /// `WriteFault` where the sink failed. Then a prefix of the text was written.
    pub fn write<O: Sink>(&self, output: &mut O) -> Result<(), WriteFault>
        ensures ok { OnOk result (O.seen output.new ≡ given (totals_text (totals_view self.now)) (O.seen output.old)) }
        ensures failed { OnErr result (HasFailedBehind (totals_text (totals_view self.now)) (O.seen output.old) (O.seen output.new)) }
    {
        match write_all(output, self.text().as_slice()) {
            Ok(()) => Ok(()),
            Err(Failed) => Err(WriteFault),
        }
    }
}
