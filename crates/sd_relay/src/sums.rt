//! The totals of all receivers, and of the reader of lines.
ghost use Rattle.std.specs.Prelude.{◌≡◌, ◌≤◌, ◌<◌, ◌^◌, ◌++◌, List, All, IfSome, length, map};
ghost use Rattle.sd_model_record.specs.Totals.{Total};
ghost use Rattle.sd_model_proxy.specs.Routes.{sums_of_totals};
ghost use Rattle.sd_relay.specs.Sums.{AddsTotals, GrowsLittle, HasRoom, LineWasRun, WasRun, line_totals, sums_view, totals_by_lines, totals_in};
ghost use Rattle.sd_proxy_desk.specs.Views.{totals_view};

use crate::line_post::LinePost;
use crate::post::Post;
use sd_proxy::ProxyTotals;

/// What all receivers of a proxy, and its reader of lines, counted, added up.
#[derive(Clone, Copy, Debug, PartialEq, Eq)]
pub struct ProxySums {
    pub packets: u128,
    pub lines: u128,
    pub bad: u128,
    pub sent: u128,
    pub unowned: u128,
    pub send_faults: u128,
}

impl ProxySums {
    /// With the totals of one more.
    fn with(self, totals: ProxyTotals) -> ProxySums
        requires { HasRoom self }
        ensures adds { AddsTotals totals self result }
        ensures few { GrowsLittle self result }
    {
        ProxySums {
            packets: self.packets + u128::from(totals.packets),
            lines: self.lines + u128::from(totals.lines),
            bad: self.bad + u128::from(totals.bad),
            sent: self.sent + u128::from(totals.sent),
            unowned: self.unowned + u128::from(totals.unowned),
            send_faults: self.send_faults + u128::from(totals.send_faults),
        }
    }
}

/// What the receiver of a post that was run counted.
fn totals_of<D, L>(post: &Post<D, L>) -> ProxyTotals
    requires { WasRun post.now }
    ensures { totals_view result ≡ totals_in post.now }
{
    match &post.got {
        Some(got) => got.totals,
        None => unreachable!(),
    }
}

/// What the receivers of posts that were run counted, added up.
pub fn add_up<D, L>(posts: &[Post<D, L>]) -> ProxySums
    requires run { All WasRun posts.now }
    requires few { length posts.now < 2 ^ 32 }
    ensures sums { sums_view result ≡ sums_of_totals (map totals_in posts.now) }
    ensures room { HasRoom result }
{
    let mut sums = ProxySums {
        packets: 0,
        lines: 0,
        bad: 0,
        sent: 0,
        unowned: 0,
        send_faults: 0,
    };
    for post in posts {
        sums = sums.with(totals_of(post));
    }
    sums
}

// What the reader of lines of a post that was run counted.
fn line_totals_of<L>(post: &LinePost<L>) -> ProxyTotals
    requires { LineWasRun post.now }
    ensures { totals_view result ≡ totals_by_lines post.now.got }
{
    match &post.got {
        Some(got) => got.totals,
        None => unreachable!(),
    }
}

/// These sums with what the reader of lines counted, if there is one, whose post was run.
pub(crate) fn with_lines<L>(sums: ProxySums, lines: &Option<LinePost<L>>) -> ProxySums
    requires room { HasRoom sums }
    requires run { IfSome lines.now LineWasRun }
    ensures { (counted : List (List Total)) → sums_view sums ≡ sums_of_totals counted → sums_view result ≡ sums_of_totals (counted ++ line_totals lines.now) }
{
    match lines {
        Some(post) => sums.with(line_totals_of(post)),
        None => sums,
    }
}
