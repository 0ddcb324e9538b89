ghost use Rattle.std.specs.Prelude.{◌≡◌, ◌≢◌, ℕ, ◌+◌, ◌<◌, ◌≤◌, ◌^◌, max, replicate, IfOk, IfSome, pos, length, get_or, set, Some, None, MatchOption, ◌↔◌, IsTrue};
ghost use Rattle.sd_rows.specs.Index.{taken_count};
ghost use Rattle.sd_rows.specs.Rows.{row_at, row_seen, no_tally, Holds, IsAbsent, AreApart, StandsNowhereElse, reset};
ghost use Rattle.sd_rows.specs.RowMap.{has_id, id_of, copy_steps};

use crate::hash::hash_of;
use crate::head::{Head, NO_HEAD, is_row, view_of};
use crate::index::Index;
use crate::ranking::Ranking;
use crate::row::RowView;
use crate::steps::Steps;
use crate::tally::Tally;
use sd_decimal::Micro;
use sd_key::{Key, Kind};
use std::alloc::{AllocError, Global};
use std::marker::Model;
use std::sync::ledger::Ledger;

/// The most places that rows may have.
const MOST_PLACES: u32 = 1 << 30;

/// Rows in places that stay, in room taken when it was opened, and beside each a tally. No kind and key stands twice.
///
/// Contracts see the list of the places, each of which is empty or has a row, and the list of the tallies. The keys stand apart from the
/// rest, and no memory of a place is written before the place is in use.
#[derive(Debug, Drop)]
pub struct Rows {
    heads: Vec<Head>,
    keys: Vec<Key>,
    index: Index,
    ranking: Ranking,
    live: u32,
    room: u32,
    seed: u64,
}

impl Model for Rows {
    ghost use Rattle.sd_rows.specs.Rows.{Places};

    ghost Value = { Places };

    ghost use Rattle.sd_rows.specs.RowsInside.{places_of, IsRows};

    ghost view = { places_of };

    ghost invariant = { IsRows };
}

impl Rows {
    /// `n` places, all of them empty, found by hashes under a seed. The error is want of memory, and comes at more than 2^30 places too.
    ///
    /// It takes 24 bytes a place for the index, which are written at once, and for each place that comes into use 336 bytes, of which 272
    /// are its key.
    pub fn open(alloc: Global, n: u32, seed: u64) -> Result<Rows, AllocError>
        ensures rows { IfOk result (λ r. r.rows ≡ replicate n None) }
        ensures tallies { IfOk result (λ r. r.tallies ≡ replicate n no_tally) }
        ensures used { IfOk result (λ r. r.used ≡ 0) }
    {
        if n > MOST_PLACES {
            return Err(AllocError);
        }
        Ok(Rows {
            heads: Vec::with_capacity(alloc, n as usize)?,
            keys: Vec::with_capacity(alloc, n as usize)?,
            index: Index::open(alloc, n)?,
            ranking: Ranking::open(alloc, n)?,
            live: 0,
            room: n,
            seed,
        })
    }

    /// How many places there are, empty or not.
    pub fn len(&self) -> u32
        ensures len { result ≡ length self.now.rows }
        ensures tallies { length self.now.tallies ≡ length self.now.rows }
        ensures apart { AreApart self.now.rows }
    {
        self.room
    }

    /// How many places from the first on were ever in use.
    fn used(&self) -> u32
        ensures used { result ≡ self.now.used }
        ensures within { self.now.used ≤ length self.now.rows }
        ensures few { length self.now.rows ≤ 2 ^ 30 }
        ensures empty { (p : ℕ) → self.now.used ≤ p → row_at self.now.rows p ≡ None }
        ensures unknown { (p : ℕ) → self.now.used ≤ p → get_or self.now.tallies p no_tally ≡ no_tally }
    {
        self.heads.len() as u32
    }

    /// The row that stands in a place, or none where it is empty.
    pub fn row(&self, at: u32) -> Option<RowView<'_>>
        requires { at < length self.now.rows }
        ensures { MatchOption result (row_at self.now.rows at ≡ None) (λ row. row_at self.now.rows at ≡ Some (row_seen row)) }
    {
        if at >= self.used() {
            return None;
        }
        view_of(&self.heads[at as usize], &self.keys[at as usize])
    }

    /// The place of the row of this kind and key, or none where no place has it.
    pub fn find(&self, kind: Kind, key: &Key) -> Option<u32>
        ensures found { MatchOption result (IsAbsent kind key.now self.now.rows) (λ at. Holds kind key.now (row_at self.now.rows at)) }
        ensures within { IfSome result (λ at. at < length self.now.rows) }
        ensures apart { AreApart self.now.rows }
    {
        let hash = hash_of(self.seed, kind, key);
        let end = self.index.end();
        for cell in self.index.home(hash)..end {
            let Some(place) = self.index.place_at(cell) else {
                return None;
            };
            if self.is_at(place, self.index.tag_at(cell) == hash, kind, key) {
                return Some(place);
            }
        }
        None
    }

    /// Whether the row of this kind and key stands in this place, which was in use. It isn't looked at where the hashes differ.
    fn is_at(&self, place: u32, is_hash: bool, kind: Kind, key: &Key) -> bool
        requires { place < self.now.used }
        ensures { IsTrue result ↔ (IsTrue is_hash × Holds kind key.now (row_at self.now.rows place)) }
    {
        if !is_hash {
            return false;
        }
        is_row(
            &self.heads[place as usize],
            &self.keys[place as usize],
            kind,
            key,
        )
    }

    /// Makes the row of this kind and key, which is absent, with base 0 and no swaps. Answers its place, which was empty. The other places stay.
    pub fn add(&mut self, kind: Kind, key: &Key) -> u32
        requires absent { IsAbsent kind key.now self.old.rows }
        requires room { taken_count self.old.rows < length self.old.rows }
        ensures within { result < length self.old.rows }
        ensures empty { row_at self.old.rows result ≡ None }
        ensures rows { self.new.rows ≡ set self.old.rows result (Some (record { kind = kind; key = key.now; base = record { 0 = pos 0 }; swaps = 0 })) }
        ensures tallies { self.new.tallies ≡ self.old.tallies }
        ensures used { self.new.used ≡ max self.old.used (result + 1) }
    {
        let place = self.empty_place();
        self.grow(place);
        self.fill(place, kind, key, Micro(0), 0);
        place
    }

    /// A place that is empty.
    fn empty_place(&self) -> u32
        requires { taken_count self.now.rows < length self.now.rows }
        ensures within { result < length self.now.rows }
        ensures empty { row_at self.now.rows result ≡ None }
    {
        if self.live < self.used() {
            self.ranking.order[self.live as usize]
        } else {
            self.live
        }
    }

    /// Notes the next place as one in use. It stays empty.
    fn push(&mut self)
        requires { self.old.used < length self.old.rows }
        ensures rows { self.new.rows ≡ self.old.rows }
        ensures tallies { self.new.tallies ≡ self.old.tallies }
        ensures used { self.new.used ≡ self.old.used + 1 }
    {
        self.heads.push_reserved(NO_HEAD);
        self.keys.push_reserved(Key::of(&[]).unwrap());
        self.index.push();
        self.ranking.push();
    }

    /// Notes the places up to this one as in use. All stay as they are.
    fn grow(&mut self, at: u32)
        requires { at < length self.old.rows }
        ensures rows { self.new.rows ≡ self.old.rows }
        ensures tallies { self.new.tallies ≡ self.old.tallies }
        ensures used { self.new.used ≡ max self.old.used (at + 1) }
    {
        for _place in self.used()..at + 1 {
            self.push();
        }
    }

    /// Puts a row that is absent into an empty place.
    fn fill(&mut self, place: u32, kind: Kind, key: &Key, base: Micro, swaps: u32)
        requires within { place < self.old.used }
        requires empty { row_at self.old.rows place ≡ None }
        requires absent { IsAbsent kind key.now self.old.rows }
        ensures rows { self.new.rows ≡ set self.old.rows place (Some (record { kind = kind; key = key.now; base = base; swaps = swaps })) }
        ensures tallies { self.new.tallies ≡ self.old.tallies }
        ensures used { self.new.used ≡ self.old.used }
    {
        self.index.insert(place, hash_of(self.seed, kind, key));
        self.heads[place as usize].begin(kind, base, swaps);
        self.keys[place as usize].clone_from(key);
        self.ranking.exchange(place, self.live);
        self.live += 1;
    }

    /// Empties a place that has a row. The other rows keep their places.
    pub fn remove(&mut self, at: u32)
        requires live { row_at self.old.rows at ≢ None }
        ensures rows { self.new.rows ≡ set self.old.rows at None }
        ensures tallies { self.new.tallies ≡ self.old.tallies }
        ensures used { self.new.used ≡ self.old.used }
    {
        self.index.remove(at);
        self.heads[at as usize].end();
        self.live -= 1;
        self.ranking.exchange(at, self.live);
    }

    /// Empties all places.
    pub fn clear(&mut self)
        ensures rows { self.new.rows ≡ replicate (length self.old.rows) None }
        ensures tallies { self.new.tallies ≡ self.old.tallies }
        ensures used { self.new.used ≡ self.old.used }
    {
        for _i in 0..self.live() {
            self.remove(self.last_place());
        }
    }

    /// How many places have a row.
    fn live(&self) -> u32
        ensures { result ≡ taken_count self.now.rows }
    {
        self.live
    }

    /// A place that has a row, where one has.
    fn last_place(&self) -> u32
        requires { 0 < taken_count self.now.rows }
        ensures { row_at self.now.rows result ≢ None }
    {
        self.ranking.order[self.live as usize - 1]
    }

    /// How many places are empty.
    pub fn free(&self) -> u32
        ensures { taken_count self.now.rows + result ≡ length self.now.rows }
    {
        self.room - self.live
    }

    /// Gives the row of a place this base, in millionths, and these swaps. The rest stays.
    pub fn set(&mut self, at: u32, base: Micro, swaps: u32)
        requires live { row_at self.old.rows at ≢ None }
        ensures rows { self.new.rows ≡ set self.old.rows at (reset (row_at self.old.rows at) base swaps) }
        ensures tallies { self.new.tallies ≡ self.old.tallies }
        ensures used { self.new.used ≡ self.old.used }
    {
        self.heads[at as usize].reset(base, swaps);
    }

    /// The tally of a place.
    pub fn tally(&self, at: u32) -> Tally
        requires { at < length self.now.rows }
        ensures { result ≡ get_or self.now.tallies at no_tally }
    {
        if at >= self.used() {
            return NO_HEAD.tally;
        }
        self.heads[at as usize].tally
    }

    /// Gives a place that has a row this tally. The rest stays.
    pub fn set_tally(&mut self, at: u32, tally: Tally)
        requires live { row_at self.old.rows at ≢ None }
        ensures rows { self.new.rows ≡ self.old.rows }
        ensures tallies { self.new.tallies ≡ set self.old.tallies at tally }
        ensures used { self.new.used ≡ self.old.used }
    {
        self.heads[at as usize].keep(tally);
    }

    /// Makes a place as that of the other rows is. The other places stay, and all tallies. A copied row is one step; where the place has
    /// that kind and key already, or becomes empty, there is none.
    pub fn copy_row<L: Ledger>(&mut self, from: &Rows, at: u32, steps: &mut Steps<L>)
        requires within { at < length self.old.rows }
        requires from { at < length from.now.rows }
        requires apart { StandsNowhereElse (row_at from.now.rows at) at self.old.rows }
        ensures rows { self.new.rows ≡ set self.old.rows at (row_at from.now.rows at) }
        ensures tallies { self.new.tallies ≡ self.old.tallies }
        ensures steps { steps.new ≡ steps.old + copy_steps (row_at from.now.rows at) (row_at self.old.rows at) }
    {
        match from.row(at) {
            None => self.empty(at),
            Some(row) => self.copy_in(at, &row, steps),
        }
    }

    /// Puts a copy of a row into a place, whatever it has. Where that is the same kind and key, the index stays as it is.
    fn copy_in<L: Ledger>(&mut self, at: u32, row: &RowView<'_>, steps: &mut Steps<L>)
        requires within { at < length self.old.rows }
        requires apart { StandsNowhereElse (Some (row_seen row.now)) at self.old.rows }
        ensures rows { self.new.rows ≡ set self.old.rows at (Some (row_seen row.now)) }
        ensures tallies { self.new.tallies ≡ self.old.tallies }
        ensures steps { steps.new ≡ steps.old + copy_steps (Some (row_seen row.now)) (row_at self.old.rows at) }
    {
        if self.has(at, row.kind, row.key) {
            self.set(at, row.base, row.swaps);
        } else {
            self.empty(at);
            self.grow(at);
            self.fill(at, row.kind, row.key, row.base, row.swaps);
            steps.tick();
        }
    }

    /// Whether a place has the row of this kind and key.
    fn has(&self, at: u32, kind: Kind, key: &Key) -> bool
        requires { at < length self.now.rows }
        ensures holds { IsTrue result ↔ Holds kind key.now (row_at self.now.rows at) }
        ensures same { result ≡ has_id (id_of kind key.now) (row_at self.now.rows at) }
    {
        match self.row(at) {
            None => false,
            Some(row) => row.is_of(kind, key),
        }
    }

    /// Empties a place, whatever it has. The other places stay.
    fn empty(&mut self, at: u32)
        requires { at < length self.old.rows }
        ensures rows { self.new.rows ≡ set self.old.rows at None }
        ensures tallies { self.new.tallies ≡ self.old.tallies }
        ensures used { self.new.used ≡ self.old.used }
    {
        if self.row(at).is_some() {
            self.remove(at);
        }
    }
}
