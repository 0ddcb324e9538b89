ghost use Rattle.std.specs.Prelude.{◌+◌, ◌≤◌, length, All, vec_len, vec_capacity};
ghost use Rattle.std.specs.Option.{ForSome, option_to_list};
ghost use Rattle.sd_memory.specs.ByteStore.{bytes_in};

use crate::byte_store::ByteStore;
use std::alloc::{AllocError, Global};

/// Where a list stands among the bytes, and whether it was ended.
#[derive(Clone, Copy)]
pub(crate) struct Span {
    start: usize,
    end: usize,
    is_ended: bool,
}

/// Lists of bytes in one buffer, whose room is taken when the store is made. The last list may be open.
#[derive(Drop)]
pub(crate) struct RoundStore {
    bytes: ByteStore,
    spans: Vec<Span>,
    list_room: usize,
    open_from: Option<usize>,
    ghost lists_within_room: { vec_len spans + length (option_to_list open_from) ≤ list_room },
    ghost list_room_is_taken: { list_room ≤ vec_capacity spans },
    ghost spans_within: { All (λ span. (span.start ≤ span.end) × (span.end ≤ length (bytes_in bytes))) spans.items },
    ghost open_within: { ForSome open_from (λ start. start ≤ length (bytes_in bytes)) },
}

impl RoundStore {
    ghost use Rattle.std.specs.Prelude.{◌≡◌, ◌+◌, ◌<◌, ◌≤◌, ◌↔◌, length, IfOk, IsTrue, IsNone, IsSome, OnSome, IfNone, None, Some, [], ◌∷◌, ◌++◌, ◌⊎◌, slice_get};
    ghost use Rattle.std.specs.Option.{option_map};
    ghost use Rattle.sd_model_outside.specs.Outside.{Rounds, appended, begun, ended, lists_of};
    ghost use Rattle.sd_memory.specs.RoundStore.{round_at, closed, rounds_in, open_in, content_by, lists_in, bytes_of_lists, byte_room_in, list_room_in};

    /// A store with no list, and room for that many bytes and that many lists.
    ///
    /// # Errors
    ///
    /// Where no memory is left for the room.
    pub(crate) fn open(alloc: Global, bytes: usize, lists: usize) -> Result<RoundStore, AllocError>
        ensures empty { IfOk result (λ s. content_by s ≡ Rounds [] None) }
        ensures byte_room { IfOk result (λ s. byte_room_in s ≡ bytes) }
        ensures list_room { IfOk result (λ s. list_room_in s ≡ lists) }
    {
        Ok(RoundStore {
            bytes: ByteStore::open(alloc, bytes)?,
            spans: Vec::with_capacity(alloc, lists)?,
            list_room: lists,
            open_from: None,
        })
    }

    /// How many bytes more it has room for.
    pub(crate) fn byte_room(&self) -> usize
        ensures { result ≡ byte_room_in self.now }
    {
        self.bytes.room()
    }

    /// Whether it has room for one more list.
    pub(crate) fn has_list_room(&self) -> bool
        ensures { IsTrue result ↔ (0 < list_room_in self.now) }
    {
        self.len() < self.list_room
    }

    /// Whether a list is open.
    pub(crate) fn is_open(&self) -> bool
        ensures { IsTrue result ↔ IsSome (open_in self.now) }
    {
        self.open_from.is_some()
    }

    /// How many lists it has.
    pub(crate) fn len(&self) -> usize
        ensures { result ≡ length (lists_in self.now) }
    {
        self.spans.len() + usize::from(self.open_from.is_some())
    }

    /// Where the list at that place stands.
    fn span(&self, place: usize) -> Span
        requires { place < length (lists_in self.now) }
        ensures list { slice_get (lists_in self.now) place ≡ Some (round_at (bytes_in self.now.bytes) result) }
        ensures start { result.start ≤ result.end }
        ensures end { result.end ≤ length (bytes_in self.now.bytes) }
    {
        if place < self.spans.len() {
            return self.spans[place];
        }
        Span {
            start: self.open_from.unwrap(),
            end: self.bytes.len(),
            is_ended: false,
        }
    }

    /// The bytes of the list at that place.
    pub(crate) fn list(&self, place: usize) -> &[u8]
        requires { place < length (lists_in self.now) }
        ensures { option_map (λ round. round.bytes) (slice_get (lists_in self.now) place) ≡ Some result.now }
    {
        let span = self.span(place);
        &self.bytes.as_slice()[span.start..span.end]
    }

    /// Whether the list at that place was ended.
    pub(crate) fn is_ended(&self, place: usize) -> bool
        requires { place < length (lists_in self.now) }
        ensures { option_map (λ round. round.is_ended) (slice_get (lists_in self.now) place) ≡ Some result }
    {
        self.span(place).is_ended
    }

    /// Starts a list. One that is open stays as it is.
    pub(crate) fn begin(&mut self)
        requires { 0 < list_room_in self.old }
        ensures content { content_by self.new ≡ begun (content_by self.old) }
        ensures byte_room { byte_room_in self.new ≡ byte_room_in self.old }
        ensures list_room { list_room_in self.new + 1 ≡ list_room_in self.old }
    {
        self.close(false);
        self.open_from = Some(self.bytes.len());
    }

    /// Ends the open list. Where none is open it changes nothing.
    pub(crate) fn finish(&mut self)
        ensures content { content_by self.new ≡ ended (content_by self.old) }
        ensures byte_room { byte_room_in self.new ≡ byte_room_in self.old }
        ensures list_room { list_room_in self.new ≡ list_room_in self.old }
    {
        self.close(true);
    }

    /// Appends bytes to the open list. Where none is open it starts one.
    pub(crate) fn append(&mut self, bytes: &[u8])
        requires some { 0 < length bytes.now }
        requires byte_room { length bytes.now ≤ byte_room_in self.old }
        requires list_room { IsSome (open_in self.old) ⊎ (0 < list_room_in self.old) }
        ensures content { content_by self.new ≡ appended (content_by self.old) bytes.now }
        ensures byte_room { byte_room_in self.new + length bytes.now ≡ byte_room_in self.old }
        ensures list_room { OnSome (open_in self.old) (list_room_in self.new ≡ list_room_in self.old) }
        ensures new_list { IfNone (open_in self.old) (list_room_in self.new + 1 ≡ list_room_in self.old) }
    {
        let start = self.open_from.unwrap_or(self.bytes.len());
        self.bytes.append(bytes);
        self.open_from = Some(start);
    }

    /// Adds an ended list of these bytes.
    pub(crate) fn add(&mut self, bytes: &[u8])
        requires none_open { IsNone (open_in self.old) }
        requires byte_room { length bytes.now ≤ byte_room_in self.old }
        requires list_room { 0 < list_room_in self.old }
        ensures lists { bytes_of_lists self.new ≡ bytes_of_lists self.old ++ bytes.now ∷ [] }
        ensures none_open { IsNone (open_in self.new) }
        ensures byte_room { byte_room_in self.new + length bytes.now ≡ byte_room_in self.old }
        ensures list_room { list_room_in self.new + 1 ≡ list_room_in self.old }
    {
        let start = self.bytes.len();
        self.bytes.append(bytes);
        self.spans.push_reserved(Span {
            start,
            end: self.bytes.len(),
            is_ended: true,
        });
    }

    /// Closes the open list, if there is one.
    fn close(&mut self, is_ended: bool)
        ensures rounds { rounds_in self.new ≡ closed is_ended (rounds_in self.old) (open_in self.old) }
        ensures open { open_in self.new ≡ None }
        ensures byte_room { byte_room_in self.new ≡ byte_room_in self.old }
        ensures list_room { list_room_in self.new ≡ list_room_in self.old }
    {
        if let Some(start) = self.open_from.take() {
            self.spans.push_reserved(Span {
                start,
                end: self.bytes.len(),
                is_ended,
            });
        }
    }
}
