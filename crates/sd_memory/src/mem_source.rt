ghost use Rattle.std.specs.Prelude.{◌<◌, ◌≤◌, vec_len};

use crate::calls::next_call_fails;
use crate::mem_object::{Content, MemObject};
use sd_outside::{Failed, Faulty, Source, fault};

/// The bytes that a source in memory has left.
#[derive(Drop)]
pub struct BytesLeft {
    bytes: Vec<u8>,
    taken: usize,
    /// How many bytes a read gives at most. Not 0.
    pub most: usize,
    ghost some_at_most: { 0 < most },
    ghost taken_within: { taken ≤ vec_len bytes },
}

impl Content for BytesLeft {
    ghost use Rattle.sd_memory.specs.MemSource.{bare};

    ghost bare = { bare };
}

/// A source in memory, whose bytes are given when it is made.
pub type MemSource = MemObject<BytesLeft>;

impl MemSource {
    ghost use Rattle.std.specs.Prelude.{◌≡◌, []};
    ghost use Rattle.sd_model_outside.specs.Outside.{Left, fresh};
    ghost use Rattle.sd_memory.specs.MemObject.{Calls, calls_of};
    ghost use Rattle.sd_memory.specs.MemSource.{most_of};

    /// A source that has the bytes left, of which no call is to fail, and whose reads give as much as they can.
    pub fn of(bytes: Vec<u8>) -> MemSource
        ensures seen { ⟦<MemSource as Faulty>⟧.seen result ≡ fresh (Left bytes.items) }
        ensures no_calls { calls_of result ≡ record { openings = 0; calls = 0 } }
        ensures fails_no_opening { result.fail_open.items ≡ [] }
        ensures fails_no_read { result.fail_call.items ≡ [] }
        ensures most { most_of result ≡ usize.MAX }
    {
        let alloc = *bytes.allocator();
        MemObject::around(
            alloc,
            BytesLeft {
                bytes,
                taken: 0,
                most: usize::MAX,
            },
        )
    }

    /// The bytes that it has left.
    pub fn remaining(&self) -> &[u8]
        ensures { (⟦<MemSource as Faulty>⟧.seen self.now).content ≡ Left result.now }
    {
        &self.content.bytes[self.content.taken..]
    }
}

impl Source for MemSource {
    ghost use Rattle.std.specs.Prelude.{◌≡◌, ◌<◌, ◌↔◌, length, IfOk, OnErr, IsErr};
    ghost use Rattle.sd_outside.specs.Turns.{raised};
    ghost use Rattle.sd_outside.specs.Answers.{Fails};
    ghost use Rattle.sd_memory.specs.MemObject.{Calls, IsToFail, SameFailures, calls_of};
    ghost use Rattle.sd_memory.specs.MemSource.{Gives, most_of, seen_of};

    fn read(&mut self, buf: &mut [u8]) -> Result<usize, Failed>
        requires { 0 < length buf.old }
        ensures gives { IfOk result (Gives self.old self.new buf.old buf.new) }
        ensures fails { OnErr result (Fails (seen_of self.old) (seen_of self.new)) }
        ensures buffer_stays { OnErr result (buf.new ≡ buf.old) }
        ensures cause { IsErr result ↔ IsToFail self.old self.new }
        ensures counted { calls_of self.new
            ≡ record (calls_of self.old) { calls = raised (calls_of self.old).calls } }
        ensures failures_stay { SameFailures self.old self.new }
        ensures most_stays { most_of self.new ≡ most_of self.old }
    {
        if next_call_fails(&mut self.calls, &self.fail_call) {
            return Err(fault(&mut self.faults));
        }
        let rest = &self.content.bytes[self.content.taken..];
        let count = rest.len().min(buf.len()).min(self.content.most);
        buf[..count].copy_from_slice(&rest[..count]);
        self.content.taken += count;
        Ok(count)
    }
}
