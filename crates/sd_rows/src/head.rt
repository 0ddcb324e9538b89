ghost use Rattle.std.specs.Prelude.{◌≡◌, ◌↔◌, ℕ, List, IsTrue, Some, None, MatchOption};
ghost use Rattle.sd_rows.specs.Heads.{row_with};
ghost use Rattle.sd_rows.specs.Rows.{row_seen, reset, Holds};

use crate::row::RowView;
use crate::tally::Tally;
use sd_decimal::{Micro, Sum};
use sd_key::{Key, Kind};

/// What a sample needs of a place but the key: the tally of its row, and of the row what isn't the key. Where it has no kind, the place
/// is empty.
///
/// It has 48 bytes, so that it lies in one line of a cache of 64 bytes, or in two that are neighbours. No alignment wider than 16 can
/// be asked for.
#[derive(Clone, Copy, Debug)]
pub(crate) struct Head {
    pub(crate) tally: Tally,
    pub(crate) base: Micro,
    pub(crate) swaps: u32,
    pub(crate) kind: Option<Kind>,
}

const _: () = prove!(size_of::<Head>() == 48);

/// The head of a place that was never in use.
pub(crate) const NO_HEAD: Head = Head {
    tally: Tally {
        samples: 0,
        gauge: Micro(0),
        weight: Sum(0),
    },
    base: Micro(0),
    swaps: 0,
    kind: None,
};

impl Head {
    /// Begins a row. The tally stays.
    pub(crate) fn begin(&mut self, kind: Kind, base: Micro, swaps: u32)
        ensures row { (key : List ℕ) → row_with self.new key ≡ Some (record { kind = kind; key = key; base = base; swaps = swaps }) }
        ensures tally { self.new.tally ≡ self.old.tally }
    {
        self.kind = Some(kind);
        self.base = base;
        self.swaps = swaps;
    }

    /// Ends the row. The tally stays.
    pub(crate) fn end(&mut self)
        ensures row { (key : List ℕ) → row_with self.new key ≡ None }
        ensures tally { self.new.tally ≡ self.old.tally }
    {
        self.kind = None;
    }

    /// Gives the row, where there is one, another base and other swaps. The tally stays.
    pub(crate) fn reset(&mut self, base: Micro, swaps: u32)
        ensures row { (key : List ℕ) → row_with self.new key ≡ reset (row_with self.old key) base swaps }
        ensures tally { self.new.tally ≡ self.old.tally }
    {
        self.base = base;
        self.swaps = swaps;
    }

    /// Gives it another tally. The row stays.
    pub(crate) fn keep(&mut self, tally: Tally)
        ensures row { (key : List ℕ) → row_with self.new key ≡ row_with self.old key }
        ensures tally { self.new.tally ≡ tally }
    {
        self.tally = tally;
    }
}

/// The row that a head has with its key.
pub(crate) fn view_of<'a>(head: &Head, key: &'a Key) -> Option<RowView<'a>>
    ensures { MatchOption result (row_with head.now key.now ≡ None) (λ row. row_with head.now key.now ≡ Some (row_seen row)) }
{
    match head.kind {
        None => None,
        Some(kind) => Some(RowView {
            kind,
            key,
            base: head.base,
            swaps: head.swaps,
        }),
    }
}

/// Whether a head has with its key the row of this kind and key.
pub(crate) fn is_row(head: &Head, own: &Key, kind: Kind, key: &Key) -> bool
    ensures { IsTrue result ↔ Holds kind key.now (row_with head.now own.now) }
{
    match head.kind {
        None => false,
        Some(other) => other == kind && *own == *key,
    }
}
