use crate::buf::Buf;
use crate::pass_view::PassView;
use crate::stop_flag::StopSeat;
use crossbeam_queue::Pass;

/// The end of an outlet on which texts are sent.
#[derive(Drop)]
pub struct Feed {
    pub(crate) full: Pass<Buf, PassView>,
    pub(crate) empty: Pass<Buf, PassView>,
    pub(crate) stop: StopSeat,
    // The buffer of a send that was refused, which is the next to go out.
    pub(crate) kept: Option<Buf>,
    // Whether a buffer is out.
    pub(crate) out: bool,
    pub(crate) sends: u64,
    pub(crate) refusals: u64,
    // How many texts were sent when it was stopped, if it was.
    pub(crate) stopped: Option<u64>,
}

impl Feed {
    ghost use Rattle.std.specs.Prelude.{◌≡◌};
    ghost use Rattle.sd_outlet.specs.Feed.{sends_of, refusals_of};

    /// How many texts were sent. A send that was refused doesn't count.
    pub fn sends(&self) -> u64
        ensures { result ≡ sends_of self.now }
    {
        self.sends
    }

    /// How often there was no buffer for it, or a send was refused, up to 2^64 - 1.
    pub fn refusals(&self) -> u64
        ensures { result ≡ refusals_of self.now }
    {
        self.refusals
    }
}
