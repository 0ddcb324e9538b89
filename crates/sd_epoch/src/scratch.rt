ghost use Rattle.std.specs.Prelude.{◌≡◌, ◌<◌, ◌≤◌, [], length, map, IfOk};
ghost use Rattle.std.specs.Borrow.{sem};
ghost use Rattle.sd_epoch.specs.Limits.{limits_of, AreLimits};
ghost use Rattle.sd_epoch.specs.Members.{AreMembers};
ghost use Rattle.sd_epoch.specs.Scratch.{texts};
ghost use Rattle.sd_epoch.specs.Since.{values_at, members_at, reported_members};
ghost use Rattle.sd_epoch.specs.Values.{AreValues};

use crate::limits::Limits;
use crate::members::Members;
use crate::values::Values;
use sd_decimal::Micro;
use sd_line::Member;
use std::alloc::{AllocError, Global};
use std::marker::Model;

/// Room for the values and for the members of one row's samples.
#[derive(Debug, Drop)]
pub struct Scratch {
    values: Vec<Micro>,
    members: Vec<Member>,
}

impl Model for Scratch {
    ghost use Rattle.sd_epoch.specs.Scratch.{Gathered};

    ghost Value = { Gathered };

    ghost use Rattle.sd_epoch.specs.ScratchInside.{gathered_view, IsScratch};

    ghost view = { gathered_view };

    ghost invariant = { IsScratch };
}

impl Scratch {
    ghost use Rattle.sd_epoch.specs.ScratchLends.{LendsValues, LendsMembers};

    /// Empty room for as many samples as the limits have entries.
    pub fn open(alloc: Global, limits: Limits) -> Result<Scratch, AllocError>
        requires { AreLimits (limits_of limits) }
        ensures room { IfOk result (λ s. s.room ≡ limits.entries) }
        ensures values { IfOk result (λ s. s.values ≡ []) }
        ensures members { IfOk result (λ s. s.members ≡ []) }
    {
        Ok(Scratch {
            values: Vec::with_capacity(alloc, limits.entries as usize)?,
            members: Vec::with_capacity(alloc, limits.entries as usize)?,
        })
    }

    /// The values that were last put there.
    pub fn values(&mut self) -> &mut [Micro]
        ensures* writes_back { sem 𝓛 (LendsValues self.entry result) }
        ensures value { result.now ≡ self.old.values }
    {
        self.values.as_mut_slice()
    }

    /// The members that were last put there.
    pub fn members(&mut self) -> &mut [Member]
        ensures* writes_back { sem 𝓛 (LendsMembers self.entry result) }
        ensures value { result.now ≡ self.old.members }
    {
        self.members.as_mut_slice()
    }

    /// Puts the values of the row in a place there, in place of those before.
    pub(crate) fn put_values(&mut self, values: &Values, place: u32)
        requires room { length values.now.items.items ≤ self.old.room }
        requires values { AreValues values.now }
        requires within { place < length values.now.chain.last.items }
        ensures values { self.new.values ≡ map (λ v. v.value) (values_at place values.now.items.items) }
        ensures members { self.new.members ≡ self.old.members }
        ensures room { self.new.room ≡ self.old.room }
    {
        self.values.clear();
        values.push_to(place, &mut self.values);
        self.values.reverse();
    }

    /// Puts the members of the row in a place there, in place of those before.
    pub(crate) fn put_members(&mut self, members: &Members, place: u32)
        requires room { length members.now.items.items ≤ self.old.room }
        requires members { AreMembers members.now }
        requires within { place < length members.now.chain.last.items }
        ensures members { texts self.new.members ≡ reported_members (members_at place members.now.items.items) }
        ensures values { self.new.values ≡ self.old.values }
        ensures room { self.new.room ≡ self.old.room }
    {
        self.members.clear();
        members.push_to(place, &mut self.members);
        self.members.reverse();
    }
}
