/// What is wrong with a record of a script.
#[derive(Clone, Copy, Debug, PartialEq, Eq)]
pub enum Flaw {
    /// Its first line is of no form.
    Word,
    /// It has too many bytes, or not as many as its first line says.
    Length,
    /// The script ends within it.
    Truncated,
}
