use sd_desk::{DeskFacts, RoundMarks, Tally};

/// What a caller asks of a shared desk: the call of `Desk` of that name, with its arguments.
#[derive(Clone, Copy, Debug, PartialEq, Eq)]
pub enum DeskAsk {
    Add { t: Tally, now: u64 },
    Take,
    SetHealth { up: bool },
    Mark { m: RoundMarks },
    AdminFault,
    RepeaterFaults { n: u32 },
    Facts,
}

/// What a caller is answered: that it is done, or what the call of the ask's name answers.
#[derive(Clone, Copy, Debug, PartialEq, Eq)]
pub enum DeskReply {
    Done,
    Took(Tally),
    Reported(DeskFacts),
}
