//! What the objects in memory that are opened have in common.
ghost use Rattle.std.specs.Borrow.{Lends, sem};
ghost use Rattle.sd_model_outside.specs.Outside.{Object};
ghost use Rattle.sd_memory.specs.contracts.mem_object.MemObject.{the_row};

use crate::calls::next_call_fails;
use sd_outside::{Address, Faulty, OpenRefusal, Opens, opening_fault};
use std::alloc::Global;
use std::ops::{Deref, DerefMut};

/// What an object in memory holds.
pub trait Content {
    /// What is seen of an object that holds it, was never opened and never failed.
    ghost bare: { Self → Object };
}

/// An object in memory that is opened, around what it holds.
#[derive(Drop)]
pub struct MemObject<T> {
    pub(crate) content: T,
    pub(crate) faults: u64,
    pub(crate) calls: u64,
    opened_at: Option<Address>,
    openings: u64,
    /// The numbers of the openings that are to fail, counted from 1.
    pub fail_open: Vec<u64>,
    /// The numbers of the reads, writes, sends or calls of `next` or `next_session` that are to fail, counted from 1.
    pub fail_call: Vec<u64>,
}

impl<T: Content> MemObject<T> {
    ghost use Rattle.std.specs.Prelude.{◌≡◌, None, [], option_copied};
    ghost use Rattle.sd_memory.specs.MemObject.{Calls, calls_of, content_of, seen_by};
    ghost use Rattle.sd_outside.specs.Places.{last_place};

    /// An object that holds the content, and of which no call is to fail.
    pub(crate) fn around(alloc: Global, content: T) -> MemObject<T>
        ensures content { content_of result ≡ content }
        ensures seen { seen_by T.bare result ≡ record (T.bare content) { faults = 0; opened_at = None } }
        ensures no_calls { calls_of result ≡ record { openings = 0; calls = 0 } }
        ensures fails_no_opening { result.fail_open.items ≡ [] }
        ensures fails_no_call { result.fail_call.items ≡ [] }
    {
        MemObject {
            content,
            faults: 0,
            calls: 0,
            opened_at: None,
            openings: 0,
            fail_open: Vec::new(alloc),
            fail_call: Vec::new(alloc),
        }
    }

    /// How often it failed.
    pub fn faults(&self) -> u64
        ensures { result ≡ (seen_by T.bare self.now).faults }
    {
        self.faults
    }

    /// The address at which it was last opened, if it was.
    pub fn opened_at(&self) -> Option<&Address>
        ensures { last_place (option_copied result) ≡ (seen_by T.bare self.now).opened_at }
    {
        self.opened_at.as_ref()
    }
}

impl<T> Deref for MemObject<T> {
    type Target = T;

    ghost use Rattle.std.specs.Prelude.{◌≡◌};
    ghost use Rattle.sd_memory.specs.MemObject.{content_of};

    ghost deref_gives = { λ object content. content ≡ content_of object };

    fn deref(&self) -> &T
        ensures { result.now ≡ content_of self.now }
    {
        &self.content
    }
}

impl<T> DerefMut for MemObject<T> {
    ghost use Rattle.std.specs.Prelude.{◌≡◌};
    ghost use Rattle.sd_memory.specs.MemObject.{content_of, with_content};

    ghost deref_mut_gives = { λ object content. content ≡ content_of object };

    fn deref_mut(&mut self) -> &mut T
        ensures* writes_back { sem 𝓛 (Lends (the_row T.row) T.row self.entry result (with_content self.old)) }
        ensures value { result.now ≡ content_of self.old }
    {
        &mut self.content
    }
}

impl<T: Content> Faulty for MemObject<T> {
    ghost use Rattle.std.proofs.Common.{arith};
    ghost use Rattle.sd_memory.specs.MemObject.{seen_by};

    ghost seen = { seen_by T.bare };

    ghost faults_fit = { λ s. Prim.omega arith };
}

impl<T: Content> Opens for MemObject<T> {
    ghost use Rattle.std.specs.Prelude.{◌≡◌, ◌↔◌, OnOk, OnErr, IfErr, IsErr, Contains};
    ghost use Rattle.sd_model_outside.specs.Outside.{opened};
    ghost use Rattle.sd_outside.specs.Turns.{raised};
    ghost use Rattle.sd_outside.specs.Answers.{Fails};
    ghost use Rattle.sd_memory.specs.MemObject.{Calls, SameFailures, calls_of, content_of, seen_by};
    ghost use Rattle.sd_outside.specs.Places.{place_of};

    fn open_at(&mut self, at: &Address) -> Result<(), OpenRefusal>
        ensures ok { OnOk result (seen_by T.bare self.new ≡ opened (place_of at.now) (seen_by T.bare self.old)) }
        ensures fails { OnErr result (Fails (seen_by T.bare self.old) (seen_by T.bare self.new)) }
        ensures refusal { IfErr result (λ refusal. refusal ≡ OpenRefusal.Failed) }
        ensures cause { IsErr result ↔ Contains self.old.fail_open.items (calls_of self.new).openings }
        ensures counted { calls_of self.new
            ≡ record (calls_of self.old) { openings = raised (calls_of self.old).openings } }
        ensures content_stays { content_of self.new ≡ content_of self.old }
        ensures failures_stay { SameFailures self.old self.new }
    {
        if next_call_fails(&mut self.openings, &self.fail_open) {
            return Err(opening_fault(&mut self.faults));
        }
        self.opened_at = Some(at.copied());
        Ok(())
    }
}
