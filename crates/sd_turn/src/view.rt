//! What a seat knows. No value of these types but `About` is made.
use std::collections::LinkedList;
use std::snapshot::Snapshot;

/// What one seat added itself, and the whole as it has last seen it.
pub struct Account<E> {
    pub number: u64,
    pub own: LinkedList<E>,
    pub seen: LinkedList<E>,
}

/// The view of a seat.
pub struct View<E, F> {
    /// Its own account, and those of the seats that were joined into it. A spent seat has none.
    pub accounts: LinkedList<Account<E>>,
    /// The numbers that it may give away.
    pub spare: LinkedList<u64>,
    /// It has the turn.
    pub turn: bool,
    /// The value's fixed part. A spent seat has none.
    pub fixed: Option<F>,
}

/// What a table is told when it is made: the value, and how many seats there are.
#[derive(Drop)]
pub struct About<S> {
    pub value: Snapshot<S>,
    pub seats: u64,
}
