use sd_outside::Ended;

/// How a flusher ended, how many rounds it made, and the Unix second of the last of them, if it made one.
#[derive(Clone, Copy, Debug, PartialEq, Eq)]
pub struct Flushed {
    pub ended: Ended,
    pub rounds: u64,
    pub last: Option<u64>,
}
