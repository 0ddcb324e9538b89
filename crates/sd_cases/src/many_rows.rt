ghost use Rattle.std.specs.Prelude.{◌≡◌, ◌<◌, ℕ, length, set};
ghost use Rattle.sd_rows.specs.Rows.{row_at, Holds, StandsNowhereElse};

use crate::row_calls::{Family, Range};
use sd_key::{Key, Kind, fnv1a};
use sd_rows::{Rows, Steps};
use std::alloc::{AllocError, Global};
use std::marker::Brand;
use std::sync::ledger::{Blank, Ledger};

/// How many numbers are tried for keys of a family.
const TRIED: u32 = 1 << 20;

/// The key of a number: `k` and its digits in base 16, of which `0` to `9` and `:` to `?` stand for 0 to 15, the lowest first.
fn key_of(number: u32) -> Option<Key> {
    let mut bytes = [b'k'; 9];
    let mut left = number;
    for at in 1..9 {
        bytes[at] = b'0' + (left % 16) as u8;
        left /= 16;
    }
    Key::of(&bytes)
}

/// The finisher fmix64 of MurmurHash3, by which rows spread the hashes of keys.
fn mix(number: u64) -> u64 {
    let once = (number ^ (number >> 33)).wrapping_mul(0xff51_afd7_ed55_8ccd);
    let twice = (once ^ (once >> 33)).wrapping_mul(0xc4ce_b9fe_1a85_ec53);
    twice ^ (twice >> 33)
}

/// Whether the search for a counter of this key begins at the first cell, among so many places.
fn is_first(key: &Key, places: u32) -> bool {
    let homes = 2 * u64::from(places);
    let hash = mix(fnv1a(key.as_slice())) >> 32;
    homes != 0 && hash.wrapping_mul(homes) >> 32 == 0
}

/// Whether a counter of this key is of the family, among so many places.
fn is_in(family: Family, key: &Key, places: u32) -> bool {
    match family {
        Family::Any => true,
        Family::OneHome => is_first(key, places),
    }
}

/// The keys of a range, in their order.
fn keys_of(alloc: Global, range: Range, places: u32) -> Result<Vec<Key>, AllocError> {
    let mut keys = Vec::new(alloc);
    let mut passed = 0;
    for number in 0..TRIED {
        if passed >= range.to {
            break;
        }
        if let Some(key) = key_of(number)
            && is_in(range.family, &key, places)
        {
            if passed >= range.from {
                keys.push(key)?;
            }
            passed += 1;
        }
    }
    Ok(keys)
}

/// Adds those that are absent while there is room, and answers how many.
pub fn fill(alloc: Global, rows: &mut Rows, range: Range) -> Result<u32, AllocError> {
    let mut added = 0_u32;
    for key in &keys_of(alloc, range, rows.len())? {
        if rows.find(Kind::Counter, key).is_none() && rows.free() > 0 {
            rows.add(Kind::Counter, key);
            added = added.saturating_add(1);
        }
    }
    Ok(added)
}

/// How many of them are there.
pub fn count(alloc: Global, rows: &Rows, range: Range) -> Result<u32, AllocError> {
    let mut found = 0_u32;
    for key in &keys_of(alloc, range, rows.len())? {
        if rows.find(Kind::Counter, key).is_some() {
            found = found.saturating_add(1);
        }
    }
    Ok(found)
}

/// Removes those that are there, each so many behind the one before it and from the start again, and answers how many.
pub fn drain(alloc: Global, rows: &mut Rows, range: Range, stride: u32) -> Result<u32, AllocError> {
    let keys = keys_of(alloc, range, rows.len())?;
    let mut removed = 0_u32;
    for i in 0..keys.len() {
        let next = (i as u64).wrapping_mul(u64::from(stride)) % keys.len() as u64;
        if let Some(at) = rows.find(Kind::Counter, &keys[next as usize]) {
            rows.remove(at);
            removed = removed.saturating_add(1);
        }
    }
    Ok(removed)
}

/// Makes each place of the spare rows as that of the rows is, and answers how many rows were copied.
pub fn copy_all(rows: &Rows, spare: &mut Rows) -> u32 {
    let mut copied = 0_u32;
    for at in 0..rows.len() {
        if copy_place(rows, spare, at) {
            copied = copied.saturating_add(1);
        }
    }
    copied
}

/// Makes a place of the spare rows as that of the rows is, where both have it, and answers whether a row stands there.
fn copy_place(rows: &Rows, spare: &mut Rows, at: u32) -> bool {
    if at >= rows.len() || at >= spare.len() {
        return false;
    }
    match rows.row(at) {
        None => {
            copy_counted::<Brand>(rows, spare, at, Blank::new(1));
            false
        }
        Some(row) => {
            make_room(spare, row.kind, row.key, at);
            copy_counted::<Brand>(rows, spare, at, Blank::new(1));
            true
        }
    }
}

/// Removes a row that doesn't stand in this place.
fn make_room(rows: &mut Rows, kind: Kind, key: &Key, at: u32)
    ensures apart { (p : ℕ) → Holds kind key.now (row_at rows.new.rows p) → p ≡ at }
    ensures len { length rows.new.rows ≡ length rows.old.rows }
{
    match rows.find(kind, key) {
        Some(other) if other != at => rows.remove(other),
        _ => {}
    }
}

/// Copies a place, with steps that are counted in a ledger of its own.
fn copy_counted<L: Ledger>(rows: &Rows, spare: &mut Rows, at: u32, blank: Blank)
    requires within { at < length spare.old.rows }
    requires from { at < length rows.now.rows }
    requires apart { StandsNowhereElse (row_at rows.now.rows at) at spare.old.rows }
    requires name { blank.name ≡ L.name }
    requires parts { blank.parts ≡ L.parts }
    requires some { 0 < blank.parts }
    ensures { spare.new.rows ≡ set spare.old.rows at (row_at rows.now.rows at) }
{
    let mut steps: Steps<L> = Steps::new(blank);
    spare.copy_row(rows, at, &mut steps);
}
