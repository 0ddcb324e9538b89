/// Something that a worker passes at places that have numbers, where a test may hold it up.
pub trait Gate {
    /// Passes a place. It may wait in tests.
    fn pass(&self, place: u8);
}

/// A gate that holds nobody up.
#[derive(Clone, Copy, Debug)]
pub struct NoGate;

impl Gate for NoGate {
    fn pass(&self, _place: u8) {}
}
