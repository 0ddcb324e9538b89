use sd_edge::LongLines;

/// How much of what a client has sent one session has.
#[derive(Clone, Copy, Debug, PartialEq, Eq)]
pub enum Share {
    /// One line, so that a client who asks much holds up the others for no longer than that takes.
    Line,
    /// All whole lines that are there.
    Lines,
}

/// How many clients a door over TCP holds at once, and how much of what each of them sends.
#[derive(Clone, Copy, Debug, PartialEq, Eq)]
pub struct DoorSizes {
    /// How many connections it holds. Where more come, those go whose clients were silent longest.
    pub clients: usize,
    /// How many bytes of a line it keeps until the newline comes.
    pub line: usize,
    /// What becomes of a line that is longer.
    pub long_lines: LongLines,
    /// How much of it one session has.
    pub share: Share,
    /// How many bytes of what its clients were told and haven't taken it holds for all of them together.
    pub replies: usize,
}
