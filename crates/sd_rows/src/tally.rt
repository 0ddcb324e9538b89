use sd_decimal::{Micro, Sum};

/// What the samples of a row come to: how many there are, the value of a gauge, and what the samples of a counter or a timer weigh
/// together. Here it is only kept beside its row.
#[derive(Clone, Copy, Debug)]
pub struct Tally {
    pub samples: u64,
    pub gauge: Micro,
    pub weight: Sum,
}

const _: () = prove!(size_of::<Tally>() == 32);
