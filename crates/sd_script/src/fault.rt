/// Why a script isn't legal, and where: `at` is the number of bytes of the records before.
#[derive(Clone, Copy, Debug, PartialEq, Eq)]
pub enum ScriptFault {
    /// The first line of the record is of no form.
    Word { at: u64 },
    /// The record has too many bytes, or not as many as its first line says.
    Length { at: u64 },
    /// The script ends within the record, or before its end.
    Truncated { at: u64 },
}
