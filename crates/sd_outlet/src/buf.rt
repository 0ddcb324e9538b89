ghost use Rattle.std.specs.Prelude.{◌≤◌, vec_len, vec_capacity};

use std::alloc::{AllocError, Global};

/// A text in a buffer of fixed size, whose room is taken when it is made.
#[derive(Drop)]
pub struct Buf {
    bytes: Vec<u8>,
    size: u32,
    ghost within: { vec_len bytes ≤ size },
    ghost taken: { size ≤ vec_capacity bytes },
}

impl Buf {
    ghost use Rattle.std.specs.Prelude.{◌≡◌, ◌+◌, ◌-◌, ◌≤◌, [], ◌++◌, length, IfOk};
    ghost use Rattle.sd_outlet.specs.Buf.{text_of, size_of};

    /// An empty buffer of so many bytes.
    ///
    /// # Errors
    ///
    /// Where no memory is left for it.
    pub(crate) fn open(alloc: Global, size: u32) -> Result<Buf, AllocError>
        ensures text { IfOk result (λ b. text_of b ≡ []) }
        ensures size { IfOk result (λ b. size_of b ≡ size) }
    {
        Ok(Buf {
            bytes: Vec::with_capacity(alloc, size as usize)?,
            size,
        })
    }

    pub(crate) fn text(&self) -> &[u8]
        ensures { result.now ≡ text_of self.now }
    {
        &self.bytes
    }

    /// How many bytes more it has room for.
    pub(crate) fn room(&self) -> usize
        ensures { result ≡ size_of self.now - length (text_of self.now) }
    {
        self.size as usize - self.bytes.len()
    }

    pub(crate) fn append(&mut self, bytes: &[u8])
        requires { length (text_of self.old) + length bytes.now ≤ size_of self.old }
        ensures text { text_of self.new ≡ text_of self.old ++ bytes.now }
        ensures size { size_of self.new ≡ size_of self.old }
    {
        self.bytes.extend_from_slice(bytes).unwrap();
    }

    pub(crate) fn clear(&mut self)
        ensures text { text_of self.new ≡ [] }
        ensures size { size_of self.new ≡ size_of self.old }
    {
        self.bytes.clear();
    }
}
