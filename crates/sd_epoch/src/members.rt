ghost use Rattle.std.specs.Prelude.{◌≡◌, ℕ, ◌+◌, ◌*◌, ◌^◌, ◌<◌, ◌≤◌, pos, is_some, filter, [], ◌∷◌, ◌++◌, length, get_or, None, map, reverse, take, vec_len, vec_capacity, IfOk};
ghost use Rattle.std.specs.List.{list_any};
ghost use Rattle.std.specs.Ordering.{nat_cmp, is_eq};
ghost use Rattle.std.specs.Cmp.Lexicographic.{slice_cmp};
ghost use Rattle.sd_model_shard.specs.Values.{distinct};
ghost use Rattle.sd_rows.specs.Rows.{row_at};
ghost use Rattle.sd_epoch.specs.Chain.{IsChain, links_of};
ghost use Rattle.sd_epoch.specs.Members.{AreMembers, IsPushed, member_places, members_before, placed_members};
ghost use Rattle.sd_epoch.specs.Scratch.{texts};
ghost use Rattle.sd_epoch.specs.Since.{members_at, reported_members};

use crate::chain::{Chain, Link};
use crate::forget::is_live;
use crate::limits::Limits;
use sd_decimal::Sum;
use sd_line::Member;
use sd_rows::Rows;
use std::alloc::{AllocError, Global};

/// The member of a set's sample, the place of its row, and the link to the member before it in its row.
#[derive(Debug, Drop)]
pub(crate) struct SetMember {
    pub place: u32,
    pub before: Link,
    pub member: Member,
}

const _: () = prove!(size_of::<SetMember>() == 144);

/// The members of sets in the order in which they came, in room taken when they were opened.
#[derive(Debug, Drop)]
pub(crate) struct Members {
    pub items: Vec<SetMember>,
    pub chain: Chain,
}

/// A member of these bytes. All are copied at once: the clone of an `ArrayVec` pushes them one by one.
fn member_of(bytes: &[u8]) -> Member
    requires { length bytes.now ≤ 128 }
    ensures { result.items ≡ bytes.now }
{
    let mut copy = Member::new();
    copy.try_extend_from_slice(bytes).unwrap();
    copy
}

/// Whether two members are the same.
fn is_member(member: &[u8], other: &[u8]) -> bool
    ensures { result ≡ is_eq (slice_cmp nat_cmp member.now other.now) }
{
    member.cmp(other).is_eq()
}

impl Members {
    /// No members, and room for as many as the limits have entries.
    pub(crate) fn open(alloc: Global, limits: Limits) -> Result<Members, AllocError>
        ensures items { IfOk result (λ m. m.items.items ≡ []) }
        ensures members { IfOk result AreMembers }
        ensures places { IfOk result (λ m. length m.chain.last.items ≡ limits.rows) }
        ensures room { IfOk result (λ m. limits.entries ≤ vec_capacity m.items) }
    {
        let chain = Chain::open(alloc, limits)?;
        Ok(Members {
            items: Vec::with_capacity(alloc, limits.entries as usize)?,
            chain,
        })
    }

    /// The bytes of one.
    fn member(&self, at: u32) -> &[u8]
        requires { at < length self.now.items.items }
        ensures bytes { (d : SetMember) → result.now ≡ (get_or self.now.items.items at d).member.items }
        ensures few { length result.now ≤ 128 }
    {
        self.items[at as usize].member.as_slice()
    }

    /// The one before it in its row.
    fn before(&self, at: u32) -> Option<u32>
        requires { at < length self.now.items.items }
        ensures { result ≡ get_or (members_before self.now.items.items) at None }
    {
        self.items[at as usize].before.get()
    }

    /// Appends a member, of the row in this place.
    pub(crate) fn push(&mut self, place: u32, member: &Member)
        requires members { AreMembers self.old }
        requires within { place < length self.old.chain.last.items }
        requires room { vec_len self.old.items < vec_capacity self.old.items }
        requires few { vec_len self.old.items < 2 ^ 20 }
        ensures pushed { IsPushed self.old.items.items place member.now.items self.new.items.items }
        ensures members { AreMembers self.new }
        ensures places { length self.new.chain.last.items ≡ length self.old.chain.last.items }
        ensures capacity { vec_capacity self.new.items ≡ vec_capacity self.old.items }
    {
        let before = self.chain.push(place, self.items.len() as u32);
        self.items.push_reserved(SetMember {
            place,
            before,
            member: member_of(member.as_slice()),
        });
    }

    /// Takes those out whose place has no row.
    pub(crate) fn retain_live(&mut self, rows: &Rows)
        requires members { AreMembers self.old }
        requires places { length self.old.chain.last.items ≡ length rows.now.rows }
        requires few { length self.old.items.items ≤ 2 ^ 20 }
        ensures items { placed_members self.new.items.items ≡ placed_members (filter (λ m. is_some (row_at rows.now.rows m.place)) self.old.items.items) }
        ensures members { AreMembers self.new }
        ensures places { length self.new.chain.last.items ≡ length self.old.chain.last.items }
        ensures capacity { vec_capacity self.new.items ≡ vec_capacity self.old.items }
    {
        drop_members(rows, &mut self.items);
        chain_anew(&mut self.items, &mut self.chain);
    }

    /// Takes all out.
    pub(crate) fn clear(&mut self)
        ensures items { self.new.items.items ≡ [] }
        ensures members { AreMembers self.new }
        ensures places { length self.new.chain.last.items ≡ length self.old.chain.last.items }
        ensures capacity { vec_capacity self.new.items ≡ vec_capacity self.old.items }
    {
        self.items.clear();
        self.chain.clear();
    }

    /// Appends the members of the row in a place, from the last one back.
    pub(crate) fn push_to(&self, place: u32, out: &mut Vec<Member>)
        requires members { AreMembers self.now }
        requires within { place < length self.now.chain.last.items }
        requires empty { vec_len out.old ≡ 0 }
        requires room { length self.now.items.items ≤ vec_capacity out.old }
        ensures members { texts out.new.items ≡ reverse (reported_members (members_at place self.now.items.items)) }
        ensures capacity { vec_capacity out.new ≡ vec_capacity out.old }
    {
        let mut next = self.chain.last_at(place);
        while let Some(at) = next {
            out.push_reserved(member_of(self.member(at)));
            next = self.before(at);
        }
    }

    /// Whether a member stands before it in its row.
    fn stands_before(&self, place: u32, at: u32) -> bool
        requires members { AreMembers self.now }
        requires within { at < length self.now.items.items }
        requires place { get_or (member_places self.now.items.items) at 0 ≡ place }
        ensures { (d : SetMember) → result ≡ list_any (λ other. is_eq (slice_cmp nat_cmp (get_or self.now.items.items at d).member.items other))
            (reported_members (members_at place (take at self.now.items.items))) }
    {
        let member = self.member(at);
        let mut next = self.before(at);
        while let Some(other) = next {
            if is_member(member, self.member(other)) {
                return true;
            }
            next = self.before(other);
        }
        false
    }

    /// How many members of the row in a place differ.
    fn distinct_at(&self, place: u32) -> u32
        requires members { AreMembers self.now }
        requires within { place < length self.now.chain.last.items }
        requires few { length self.now.items.items ≤ 2 ^ 20 }
        ensures count { result ≡ distinct (reported_members (members_at place self.now.items.items)) }
        ensures bound { result ≤ 2 ^ 20 }
    {
        let mut count = 0;
        let mut next = self.chain.last_at(place);
        while let Some(at) = next {
            if !self.stands_before(place, at) {
                count += 1;
            }
            next = self.before(at);
        }
        count
    }

    /// The same, as whole units.
    pub(crate) fn distinct_sum(&self, place: u32) -> Sum
        requires members { AreMembers self.now }
        requires within { place < length self.now.chain.last.items }
        requires few { length self.now.items.items ≤ 2 ^ 20 }
        ensures { result.0 ≡ pos (distinct (reported_members (members_at place self.now.items.items)) * 1000000) }
    {
        Sum(i128::from(self.distinct_at(place)) * 1_000_000)
    }
}

/// Takes the members out whose place has no row.
fn drop_members(rows: &Rows, members: &mut Vec<SetMember>)
    ensures members { members.new.items ≡ filter (λ m. is_some (row_at rows.now.rows m.place)) members.old.items }
    ensures few { vec_len members.new ≤ vec_len members.old }
    ensures capacity { vec_capacity members.new ≡ vec_capacity members.old }
{
    members.retain(|member| is_live(rows, member.place));
}

/// Chains a member behind those before it.
fn chain_at(members: &mut [SetMember], chain: &mut Chain, at: u32)
    requires within { at < length members.old }
    requires place { (d : SetMember) → (get_or members.old at d).place < length chain.old.last.items }
    requires few { at < 2 ^ 20 }
    ensures items { placed_members members.new ≡ placed_members members.old }
    ensures chain { IsChain (member_places (take at members.old)) (links_of chain.old.last.items) (members_before (take at members.old))
        → IsChain (member_places (take (at + 1) members.new)) (links_of chain.new.last.items) (members_before (take (at + 1) members.new)) }
    ensures places { length chain.new.last.items ≡ length chain.old.last.items }
{
    members[at as usize].before = chain.push(members[at as usize].place, at);
}

/// Chains these members in place of those before.
fn chain_anew(members: &mut [SetMember], chain: &mut Chain)
    requires within { (i : ℕ) (d : SetMember) → i < length members.old → (get_or members.old i d).place < length chain.old.last.items }
    requires few { length members.old ≤ 2 ^ 20 }
    ensures items { placed_members members.new ≡ placed_members members.old }
    ensures chain { IsChain (member_places members.new) (links_of chain.new.last.items) (members_before members.new) }
    ensures places { length chain.new.last.items ≡ length chain.old.last.items }
{
    chain.clear();
    for at in 0..members.len() {
        chain_at(members, chain, at as u32);
    }
}
