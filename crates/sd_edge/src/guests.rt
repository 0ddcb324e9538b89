ghost use Rattle.std.specs.Prelude.{◌≡◌, IfOk, find, position, slice_get};
ghost use Rattle.sd_edge.specs.Guests.{find_last, free_places, is_free, is_over, is_overdue, is_ready, is_stalling, may_go, next_ready, patience, patience_before_others, patience_for_room, suits, with_sign};

use crate::limit::left_of;
use std::alloc::{AllocError, Global};
use std::marker::Model;

/// How long a client may say nothing, in milliseconds: an hour.
const SILENCE: u64 = 3_600_000;

/// How long a client may leave unread what it was told, and stay where it was told the end, in milliseconds.
const UNREAD: u64 = 5_000;

/// How long a client may leave unread what it was told while others wait for its place or its room, in milliseconds.
const UNREAD_BEFORE_OTHERS: u64 = 1_000;

/// How the client at a place stands.
#[derive(Clone, Copy, Debug, PartialEq, Eq)]
pub enum Stage {
    /// There is none.
    Free,
    /// It has just come, and nothing was read of it yet.
    New,
    /// Nothing of it waits, and it has read what it was told.
    Silent,
    /// It has sent what a session has.
    Ready,
    /// It hasn't read what it was told.
    Unread,
    /// The same, and its connection ends behind that.
    Leaving,
    /// It was told the end, and hasn't left.
    Left,
}

/// A place for a client, how that client stands, and when it gave its last sign of life, in milliseconds.
#[derive(Clone, Copy, Debug, PartialEq, Eq)]
pub struct Guest {
    pub place: usize,
    pub stage: Stage,
    pub since: u64,
}

/// The places of a door in the order of their clients' last signs of life, the oldest first.
#[derive(Drop)]
pub struct Guests {
    guests: Vec<Guest>,
}

impl Model for Guests {
    ghost use Rattle.std.specs.Prelude.{List};
    ghost use Rattle.sd_edge.specs.declared.guests.Guest.{Guest};

    ghost Value = { List Guest };

    ghost view = { λ g. g.guests.items };
}

impl Stage {
    /// How long a client that stands so may give no sign of life, in milliseconds.
    fn patience(self) -> Option<u64>
        ensures { result ≡ patience self }
    {
        match self {
            Stage::Free | Stage::Ready => None,
            Stage::New | Stage::Silent => Some(SILENCE),
            Stage::Unread | Stage::Leaving | Stage::Left => Some(UNREAD),
        }
    }

    /// The same where another waits for its place.
    fn patience_before_others(self) -> Option<u64>
        ensures { result ≡ patience_before_others self }
    {
        match self {
            Stage::Free | Stage::New | Stage::Ready => None,
            Stage::Silent | Stage::Left => Some(0),
            Stage::Unread | Stage::Leaving => Some(UNREAD_BEFORE_OTHERS),
        }
    }

    /// The same where others wait for room for what they are told.
    fn patience_for_room(self) -> Option<u64>
        ensures { result ≡ patience_for_room self }
    {
        match self {
            Stage::Free | Stage::New | Stage::Silent | Stage::Ready | Stage::Left => None,
            Stage::Unread | Stage::Leaving => Some(UNREAD_BEFORE_OTHERS),
        }
    }
}

/// What a guest is sought for.
#[derive(Clone, Copy)]
enum Sought {
    /// To be at a place.
    At { place: usize },
    /// To have no client.
    Free,
    /// To have sent what a session has.
    Ready,
    /// To be let go for another at a moment.
    Going { now: u64 },
    /// To be let go for the room that it takes at a moment.
    Stalling { now: u64 },
    /// To be overdue at a moment.
    Overdue { now: u64 },
}

impl Guest {
    /// Whether patience with it is over.
    fn is_past(&self, patience: Option<u64>, now: u64) -> bool
        ensures { result ≡ is_over patience self.now.since now }
    {
        match patience {
            Some(limit) => left_of(limit, self.since, now) == 0,
            None => false,
        }
    }

    /// Whether it is as sought.
    fn suits(&self, sought: Sought) -> bool
        ensures { result ≡ suits sought self.now }
    {
        match sought {
            Sought::At { place } => self.place == place,
            Sought::Free => self.stage == Stage::Free,
            Sought::Ready => self.stage == Stage::Ready,
            Sought::Going { now } => self.is_past(self.stage.patience_before_others(), now),
            Sought::Stalling { now } => self.is_past(self.stage.patience_for_room(), now),
            Sought::Overdue { now } => self.is_past(self.stage.patience(), now),
        }
    }
}

impl Guests {
    /// So many places without clients.
    ///
    /// # Errors
    ///
    /// Where no memory is left for them.
    #[tactic(auto, using(crate::proofs::GuestLemmas::one_more))]
    pub fn open(alloc: Global, places: usize) -> Result<Guests, AllocError>
        ensures { IfOk result (λ g. g ≡ free_places places) }
    {
        let mut guests = Vec::with_capacity(alloc, places)?;
        for place in 0..places {
            guests.push(Guest {
                place,
                stage: Stage::Free,
                since: 0,
            })?;
        }
        Ok(Guests { guests })
    }

    /// The one at a number of the order, from 0 on.
    pub fn get(&self, number: usize) -> Option<Guest>
        ensures { result ≡ slice_get self.now number }
    {
        self.guests.get(number).copied()
    }

    /// The number of the first in the order that is as sought.
    fn number_of(&self, sought: Sought) -> Option<usize>
        ensures { result ≡ position (suits sought) self.now }
    {
        self.guests.iter().position(|guest| guest.suits(sought))
    }

    /// The first in the order that is as sought.
    #[tactic(auto, using(crate::proofs::GuestLemmas::found))]
    fn first(&self, sought: Sought) -> Option<Guest>
        ensures { result ≡ find (suits sought) self.now }
    {
        match self.number_of(sought) {
            Some(number) => self.get(number),
            None => None,
        }
    }

    /// The first place without a client.
    pub fn free(&self) -> Option<Guest>
        ensures { result ≡ find is_free self.now }
    {
        self.first(Sought::Free)
    }

    /// The client who is next: of those that have sent what a session has, the one whose last sign of life is the oldest, or, where
    /// it is the turn of those who came last, the latest.
    pub fn next(&self, is_latest: bool) -> Option<Guest>
        ensures { result ≡ next_ready is_latest self.now }
    {
        if is_latest {
            self.latest()
        } else {
            self.first(Sought::Ready)
        }
    }

    /// Of those that have sent what a session has, the one whose last sign of life is the latest.
    fn latest(&self) -> Option<Guest>
        ensures { result ≡ find_last is_ready self.now }
    {
        let mut latest = None;
        for guest in self.guests.iter() {
            if guest.suits(Sought::Ready) {
                latest = Some(*guest);
            }
        }
        latest
    }

    /// The client who goes where another waits: of those that may be let go, the one whose last sign of life is the oldest.
    pub fn goes(&self, now: u64) -> Option<Guest>
        ensures { result ≡ find (may_go now) self.now }
    {
        self.first(Sought::Going { now })
    }

    /// The client who goes where others wait for room for what they are told: of those that haven't read what they were told for
    /// a second, the one whose last sign of life is the oldest.
    pub fn stalls(&self, now: u64) -> Option<Guest>
        ensures { result ≡ find (is_stalling now) self.now }
    {
        self.first(Sought::Stalling { now })
    }

    /// The first client who gave no sign of life for too long.
    pub fn overdue(&self, now: u64) -> Option<Guest>
        ensures { result ≡ find (is_overdue now) self.now }
    {
        self.first(Sought::Overdue { now })
    }

    /// The client at a place gives a sign of life, and stands so from then on.
    pub fn sign(&mut self, guest: Guest)
        ensures { self.new ≡ with_sign guest self.old }
    {
        if let Some(number) = self.number_of(Sought::At { place: guest.place }) {
            self.guests.remove(number);
            self.guests.push(guest).unwrap();
        }
    }
}
