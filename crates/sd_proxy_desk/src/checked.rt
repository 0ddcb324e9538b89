/// Why a checker ended.
#[derive(Clone, Copy, Debug, PartialEq, Eq)]
pub enum CheckEnd {
    /// The beat had no tick left.
    End,
    /// The beat failed, and its count of faults rose.
    Failed,
    /// So many ticks came, which are the most.
    Worn { turns: u64 },
}

/// What a checker did: how it ended, how many sets it published, and how many questions failed, up to 2^63.
#[derive(Clone, Copy, Debug, PartialEq, Eq)]
pub struct Checked {
    pub ended: CheckEnd,
    pub checks: u64,
    pub probe_faults: u64,
}
