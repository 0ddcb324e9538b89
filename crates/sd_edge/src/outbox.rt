ghost use Rattle.std.specs.Prelude.{◌≡◌, ◌≤◌, ◌==◌, [], ◌++◌, drop, length, OnErr, OnOk};

use std::alloc::{AllocError, Global};
use std::marker::Model;

/// What a client was told and hasn't read yet. It has no memory while that is nothing.
#[derive(Drop)]
pub struct Outbox {
    alloc: Global,
    bytes: Vec<u8>,
    /// How many of the bytes were read.
    read: usize,
}

impl Model for Outbox {
    ghost use Rattle.std.specs.Prelude.{ℕ, ◌≤◌, List, drop, vec_len};

    ghost Value = { List ℕ };

    ghost view = { λ o. drop o.read o.bytes.items };

    ghost invariant = { λ o. o.read ≤ vec_len o.bytes };
}

impl Outbox {
    /// Nothing, for which no memory is taken.
    pub fn new(alloc: Global) -> Outbox
        ensures { result ≡ [] }
    {
        Outbox {
            alloc,
            bytes: Vec::new(alloc),
            read: 0,
        }
    }

    /// How many bytes aren't read.
    pub fn len(&self) -> usize
        ensures { result ≡ length self.now }
    {
        self.bytes.len() - self.read
    }

    /// Whether all was read.
    pub fn is_empty(&self) -> bool
        ensures { result ≡ (length self.now == 0) }
    {
        self.len() == 0
    }

    /// What isn't read.
    pub fn as_slice(&self) -> &[u8]
        ensures { result.now ≡ self.now }
    {
        &self.bytes[self.read..]
    }

    /// Moves what isn't read to the start of its memory.
    fn settle(&mut self)
        ensures { self.new ≡ self.old }
    {
        let left = self.len();
        self.bytes.copy_within(self.read.., 0);
        self.bytes.truncate(left);
        self.read = 0;
    }

    /// Puts bytes behind what isn't read.
    ///
    /// # Errors
    ///
    /// Where no memory is left for them. Then it is as it was.
    pub fn push(&mut self, bytes: &[u8]) -> Result<(), AllocError>
        ensures ok { OnOk result (self.new ≡ self.old ++ bytes.now) }
        ensures refused { OnErr result (self.new ≡ self.old) }
    {
        if self.read > self.len() {
            self.settle();
        }
        self.bytes.extend_from_slice(bytes)
    }

    /// Notes that so many bytes were read.
    pub fn take(&mut self, count: usize)
        requires { count ≤ length self.old }
        ensures { self.new ≡ drop count self.old }
    {
        self.read += count;
        if self.read == self.bytes.len() {
            self.bytes = Vec::new(self.alloc);
            self.read = 0;
        }
    }
}
