// How many bytes a line has at most.
pub(crate) const MOST_BYTES: usize = 65507;

/// A line of a stream, without its newline.
#[derive(Clone, Copy, Debug)]
pub enum Cut<'a> {
    /// Its bytes, at most 65,507.
    Line(&'a [u8]),
    /// It has more of them.
    Long,
}
