/// What a seat of a stop flag knows. No value of it is made.
pub struct StopView {
    /// It is the feed's, which alone raises the flag.
    pub raises: bool,
    /// How many texts were sent before the flag was raised, if it was, as the feed's seat knows it.
    pub raised: Option<u64>,
    /// The same, as the seat last found it.
    pub found: Option<u64>,
}
