ghost use Rattle.std.specs.Prelude.{◌≡◌, ℕ, ◌+◌, ◌^◌, ◌<◌, ◌≤◌, ◌*◌, ◌≤ℤ◌, ◌+ℤ◌, pos, unsigned_abs, is_some, filter, [], ◌∷◌, ◌++◌, length, get_or, None, take, reverse, map, vec_len, vec_capacity, IfOk};
ghost use Rattle.sd_model_shard.specs.Values.{total};
ghost use Rattle.sd_rows.specs.Rows.{row_at};
ghost use Rattle.sd_epoch.specs.Chain.{IsChain, links_of};
ghost use Rattle.sd_epoch.specs.Since.{values_at, reported_values};
ghost use Rattle.sd_epoch.specs.Values.{AreValues, IsValuePushed, value_places, values_before, placed_values};

use crate::chain::{Chain, Link};
use crate::forget::is_live;
use crate::limits::Limits;
use sd_decimal::{Micro, Sum};
use sd_rows::Rows;
use std::alloc::{AllocError, Global};

/// The value of a timer's sample, the place of its row, and the link to the value before it in its row.
#[derive(Debug, Drop)]
pub(crate) struct TimerValue {
    pub value: Micro,
    pub place: u32,
    pub before: Link,
}

const _: () = prove!(size_of::<TimerValue>() == 16);

/// The values of timers in the order in which they came, in room taken when they were opened.
#[derive(Debug, Drop)]
pub(crate) struct Values {
    pub items: Vec<TimerValue>,
    pub chain: Chain,
}

impl Values {
    /// No values, and room for as many as the limits have entries.
    pub(crate) fn open(alloc: Global, limits: Limits) -> Result<Values, AllocError>
        ensures items { IfOk result (λ v. v.items.items ≡ []) }
        ensures values { IfOk result AreValues }
        ensures places { IfOk result (λ v. length v.chain.last.items ≡ limits.rows) }
        ensures room { IfOk result (λ v. limits.entries ≤ vec_capacity v.items) }
    {
        let chain = Chain::open(alloc, limits)?;
        Ok(Values {
            items: Vec::with_capacity(alloc, limits.entries as usize)?,
            chain,
        })
    }

    /// Appends a value, of the row in this place.
    pub(crate) fn push(&mut self, place: u32, value: Micro)
        requires values { AreValues self.old }
        requires within { place < length self.old.chain.last.items }
        requires room { vec_len self.old.items < vec_capacity self.old.items }
        requires few { vec_len self.old.items < 2 ^ 20 }
        requires low { pos 0 ≤ℤ value.0 }
        requires high { value.0 ≤ℤ pos (10 ^ 16) }
        ensures pushed { IsValuePushed self.old.items.items place value self.new.items.items }
        ensures values { AreValues self.new }
        ensures places { length self.new.chain.last.items ≡ length self.old.chain.last.items }
        ensures capacity { vec_capacity self.new.items ≡ vec_capacity self.old.items }
    {
        let before = self.chain.push(place, self.items.len() as u32);
        self.items.push_reserved(TimerValue {
            value,
            place,
            before,
        });
    }

    /// Takes those out whose place has no row.
    pub(crate) fn retain_live(&mut self, rows: &Rows)
        requires values { AreValues self.old }
        requires places { length self.old.chain.last.items ≡ length rows.now.rows }
        requires few { length self.old.items.items ≤ 2 ^ 20 }
        ensures items { placed_values self.new.items.items ≡ placed_values (filter (λ v. is_some (row_at rows.now.rows v.place)) self.old.items.items) }
        ensures values { AreValues self.new }
        ensures places { length self.new.chain.last.items ≡ length self.old.chain.last.items }
        ensures capacity { vec_capacity self.new.items ≡ vec_capacity self.old.items }
    {
        drop_values(rows, &mut self.items);
        chain_anew(&mut self.items, &mut self.chain);
    }

    /// Takes all out.
    pub(crate) fn clear(&mut self)
        ensures items { self.new.items.items ≡ [] }
        ensures values { AreValues self.new }
        ensures places { length self.new.chain.last.items ≡ length self.old.chain.last.items }
        ensures capacity { vec_capacity self.new.items ≡ vec_capacity self.old.items }
    {
        self.items.clear();
        self.chain.clear();
    }

    /// The one before it in its row.
    fn before(&self, at: u32) -> Option<u32>
        requires { at < length self.now.items.items }
        ensures { result ≡ get_or (values_before self.now.items.items) at None }
    {
        self.items[at as usize].before.get()
    }

    /// The values of the row in a place, added up.
    pub(crate) fn sum_at(&self, place: u32) -> Sum
        requires values { AreValues self.now }
        requires within { place < length self.now.chain.last.items }
        requires few { length self.now.items.items ≤ 2 ^ 20 }
        ensures { result.0 ≡ total (reported_values (values_at place self.now.items.items)) }
    {
        let mut sum = Sum(0);
        let mut next = self.chain.last_at(place);
        while let Some(at) = next {
            sum = with_value(sum, self.items[at as usize].value);
            next = self.before(at);
        }
        sum
    }

    /// Appends the values of the row in a place, from the last one back.
    pub(crate) fn push_to(&self, place: u32, out: &mut Vec<Micro>)
        requires values { AreValues self.now }
        requires within { place < length self.now.chain.last.items }
        requires empty { vec_len out.old ≡ 0 }
        requires room { length self.now.items.items ≤ vec_capacity out.old }
        ensures values { out.new.items ≡ reverse (map (λ v. v.value) (values_at place self.now.items.items)) }
        ensures capacity { vec_capacity out.new ≡ vec_capacity out.old }
    {
        let mut next = self.chain.last_at(place);
        while let Some(at) = next {
            out.push_reserved(self.items[at as usize].value);
            next = self.before(at);
        }
    }
}

/// A sum with one value more.
fn with_value(sum: Sum, value: Micro) -> Sum
    requires few { unsigned_abs sum.0 ≤ 2 ^ 20 * 10 ^ 16 }
    requires low { pos 0 ≤ℤ value.0 }
    requires high { value.0 ≤ℤ pos (10 ^ 16) }
    ensures { result.0 ≡ sum.0 +ℤ value.0 }
{
    Sum(sum.0 + i128::from(value.0))
}

/// Takes the values out whose place has no row.
fn drop_values(rows: &Rows, values: &mut Vec<TimerValue>)
    ensures values { values.new.items ≡ filter (λ v. is_some (row_at rows.now.rows v.place)) values.old.items }
    ensures few { vec_len values.new ≤ vec_len values.old }
    ensures capacity { vec_capacity values.new ≡ vec_capacity values.old }
{
    values.retain(|value| is_live(rows, value.place));
}

/// Chains a value behind those before it.
fn chain_at(values: &mut [TimerValue], chain: &mut Chain, at: u32)
    requires within { at < length values.old }
    requires place { (d : TimerValue) → (get_or values.old at d).place < length chain.old.last.items }
    requires few { at < 2 ^ 20 }
    ensures items { placed_values values.new ≡ placed_values values.old }
    ensures chain { IsChain (value_places (take at values.old)) (links_of chain.old.last.items) (values_before (take at values.old))
        → IsChain (value_places (take (at + 1) values.new)) (links_of chain.new.last.items) (values_before (take (at + 1) values.new)) }
    ensures places { length chain.new.last.items ≡ length chain.old.last.items }
{
    values[at as usize].before = chain.push(values[at as usize].place, at);
}

/// Chains these values in place of those before.
fn chain_anew(values: &mut [TimerValue], chain: &mut Chain)
    requires within { (i : ℕ) (d : TimerValue) → i < length values.old → (get_or values.old i d).place < length chain.old.last.items }
    requires few { length values.old ≤ 2 ^ 20 }
    ensures items { placed_values values.new ≡ placed_values values.old }
    ensures chain { IsChain (value_places values.new) (links_of chain.new.last.items) (values_before values.new) }
    ensures places { length chain.new.last.items ≡ length chain.old.last.items }
{
    chain.clear();
    for at in 0..values.len() {
        chain_at(values, chain, at as u32);
    }
}
