use sd_pool::Pool;
use sd_shared_desk::SharedDesk;

/// What the workers of a server share. They end once so many flushes were counted at the desk; 0 ends none.
#[derive(Drop)]
pub struct Shared<'a, G, C> {
    pub pool: &'a Pool,
    pub desk: &'a SharedDesk,
    pub gate: &'a G,
    pub clock: &'a C,
    pub run_flushes: u64,
}
