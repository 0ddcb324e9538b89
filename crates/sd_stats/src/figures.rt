use sd_decimal::{Micro, Sum};

/// The statistics of all values of a timer.
#[derive(Clone, Copy, Debug, PartialEq, Eq)]
pub struct Whole {
    /// The standard deviation over the whole population, from the rounded mean, rounded down.
    pub std: Sum,
    pub upper: Sum,
    pub lower: Sum,
    /// What the samples weigh together: each 1 by its rate.
    pub count: Sum,
    pub count_ps: Sum,
    pub sum: Sum,
    pub sum_squares: Sum,
    pub mean: Sum,
    pub median: Sum,
}

/// The statistics of the part of a timer's values that a threshold takes.
#[derive(Clone, Copy, Debug, Default, PartialEq, Eq)]
pub struct PctStats {
    pub threshold: Micro,
    /// How many values the part has.
    pub count: u64,
    pub mean: Sum,
    /// The last of the least values, or the first of the greatest.
    pub edge: Sum,
    pub sum: Sum,
    pub sum_squares: Sum,
}
