use arrayvec::ArrayVec;

/// A number of a metric, a rate or a setting, in millionths.
#[derive(Clone, Copy, Debug, Default, PartialEq, Eq, PartialOrd, Ord)]
pub struct Micro(pub i64);

/// A total of many numbers, in millionths.
#[derive(Clone, Copy, Debug, Default, PartialEq, Eq, PartialOrd, Ord)]
pub struct Sum(pub i128);

/// One line of text on its way out: at most 1,024 bytes.
pub type Line = ArrayVec<u8, 1024>;

/// The upper limit of a bin of a histogram, which the bin doesn't hold.
#[derive(Clone, Copy, Debug, Default, PartialEq, Eq)]
pub enum Limit {
    Below(Micro),
    #[default]
    Infinite,
}

/// Why a text is no number.
#[derive(Clone, Copy, Debug, PartialEq, Eq)]
pub enum NumberFault {
    /// The text isn't an optional sign, digits with at most one point, and then an exponent or nothing.
    Shape,
    /// The number is rounded to more than 10^12 in magnitude.
    Range,
}
