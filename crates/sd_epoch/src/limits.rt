/// How many rows and entries a shard may have, each from 1 to 2^20, and whether sums are made on arrival: then only the samples
/// of timers and sets count as entries, and else all do.
#[derive(Clone, Copy, Debug, PartialEq, Eq)]
pub struct Limits {
    pub rows: u32,
    pub entries: u32,
    pub sums_on_arrival: bool,
}

/// A caller: a receiver by its number, the flusher as 100, the admin as 101.
#[derive(Clone, Copy, Debug, PartialEq, Eq)]
pub struct Who(pub u16);
