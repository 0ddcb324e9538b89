use crate::buf::Buf;
use crate::pass_view::PassView;
use crate::stop_flag::StopSeat;
use crossbeam_queue::Pass;

/// The end of an outlet from which a worker takes texts.
#[derive(Drop)]
pub struct Drain {
    pub(crate) full: Pass<Buf, PassView>,
    pub(crate) empty: Pass<Buf, PassView>,
    pub(crate) stop: StopSeat,
    // How many texts it took, up to 2^64 - 1.
    pub(crate) taken: u64,
}
