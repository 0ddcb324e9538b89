ghost use Rattle.std.specs.Prelude.{◌≡◌, ◌+◌, ◌<◌, ◌≤◌, [], ◌∷◌, ◌++◌, true, false, is_some, filter, length, vec_len, vec_capacity, IfOk};
ghost use Rattle.sd_rows.specs.Rows.{row_at};
ghost use Rattle.sd_epoch.specs.Places.{is_among};
ghost use Rattle.sd_epoch.specs.Order.{AreWithin, AreDifferent, IsRanked, IsWithout};

use crate::forget::is_live;
use sd_rows::Rows;
use std::alloc::{AllocError, Global};

/// Places in some order, and of each of them the rank at which it stands, so that none is searched for.
#[derive(Debug, Drop)]
pub(crate) struct Order {
    pub places: Vec<u32>,
    pub rank: Vec<usize>,
}

impl Order {
    /// No places, and room for so many.
    pub(crate) fn open(alloc: Global, n: u32) -> Result<Order, AllocError>
        ensures places { IfOk result (λ o. o.places.items ≡ []) }
        ensures ranked { IfOk result (λ o. IsRanked o.places.items o.rank.items) }
        ensures ranks { IfOk result (λ o. length o.rank.items ≡ n) }
        ensures len { IfOk result (λ o. vec_len o.places ≡ 0) }
        ensures capacity { IfOk result (λ o. n ≤ vec_capacity o.places) }
    {
        Ok(Order {
            places: Vec::with_capacity(alloc, n as usize)?,
            rank: vec![in alloc; 0; n as usize]?,
        })
    }

    /// Appends a place that isn't there.
    pub(crate) fn push(&mut self, place: u32)
        requires within { place < length self.old.rank.items }
        requires room { vec_len self.old.places < vec_capacity self.old.places }
        requires absent { is_among place self.old.places.items ≡ false }
        requires ranked { IsRanked self.old.places.items self.old.rank.items }
        ensures places { self.new.places.items ≡ self.old.places.items ++ place ∷ [] }
        ensures ranked { IsRanked self.new.places.items self.new.rank.items }
        ensures ranks { length self.new.rank.items ≡ length self.old.rank.items }
        ensures len { vec_len self.new.places ≡ vec_len self.old.places + 1 }
        ensures capacity { vec_capacity self.new.places ≡ vec_capacity self.old.places }
    {
        self.rank[place as usize] = self.places.len();
        self.places.push_reserved(place);
    }

    /// Takes a place out. The last one comes where it was.
    pub(crate) fn remove(&mut self, place: u32)
        requires there { is_among place self.old.places.items ≡ true }
        requires ranked { IsRanked self.old.places.items self.old.rank.items }
        ensures without { IsWithout place self.old.places.items self.new.places.items }
        ensures ranked { IsRanked self.new.places.items self.new.rank.items }
        ensures ranks { length self.new.rank.items ≡ length self.old.rank.items }
        ensures few { vec_len self.new.places ≤ vec_len self.old.places }
        ensures capacity { vec_capacity self.new.places ≡ vec_capacity self.old.places }
    {
        let at = self.rank[place as usize];
        self.places.swap_remove(at);
        if at < self.places.len() {
            let moved = self.places[at];
            self.rank[moved as usize] = at;
        }
    }

    /// Takes the places out that have no row.
    pub(crate) fn retain_live(&mut self, rows: &Rows)
        requires { IsRanked self.old.places.items self.old.rank.items }
        ensures places { self.new.places.items ≡ filter (λ place. is_some (row_at rows.now.rows place)) self.old.places.items }
        ensures ranked { IsRanked self.new.places.items self.new.rank.items }
        ensures ranks { length self.new.rank.items ≡ length self.old.rank.items }
        ensures few { vec_len self.new.places ≤ vec_len self.old.places }
        ensures capacity { vec_capacity self.new.places ≡ vec_capacity self.old.places }
    {
        drop_places(rows, &mut self.places);
        rank_anew(&self.places, &mut self.rank);
    }

    /// Takes all places out.
    pub(crate) fn clear(&mut self)
        ensures places { self.new.places.items ≡ [] }
        ensures ranked { IsRanked self.new.places.items self.new.rank.items }
        ensures ranks { length self.new.rank.items ≡ length self.old.rank.items }
        ensures len { vec_len self.new.places ≡ 0 }
        ensures capacity { vec_capacity self.new.places ≡ vec_capacity self.old.places }
    {
        self.places.clear();
    }
}

/// Takes the places out that have no row, and keeps the order of the others.
fn drop_places(rows: &Rows, places: &mut Vec<u32>)
    ensures places { places.new.items ≡ filter (λ place. is_some (row_at rows.now.rows place)) places.old.items }
    ensures few { vec_len places.new ≤ vec_len places.old }
    ensures capacity { vec_capacity places.new ≡ vec_capacity places.old }
{
    places.retain(|place| is_live(rows, *place));
}

/// Notes the rank of each place.
fn rank_anew(places: &[u32], rank: &mut Vec<usize>)
    requires within { AreWithin (length rank.old.items) places.now }
    requires different { AreDifferent places.now }
    ensures ranked { IsRanked places.now rank.new.items }
    ensures ranks { length rank.new.items ≡ length rank.old.items }
{
    for at in 0..places.len() {
        rank[places[at] as usize] = at;
    }
}
