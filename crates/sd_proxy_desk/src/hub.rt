use crate::desk::{ProxyDesk, ProxySeat};
use sd_live::{UpCell, UpPass};

/// What a proxy's threads share: the set of the nodes that are up, and the desk.
#[derive(Drop)]
pub struct ProxyHub<'a> {
    pub cell: &'a UpCell,
    pub desk: &'a ProxyDesk,
}

/// What one thread has of it: its pass of the cell, and its seat at the desk.
#[derive(Drop)]
pub struct ProxyPass {
    pub pass: UpPass,
    pub seat: ProxySeat,
}
