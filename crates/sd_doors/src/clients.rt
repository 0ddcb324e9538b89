use crate::client::{Client, Taken, Unheard};
use crate::door_sizes::DoorSizes;
use crate::look::Look;
use mio::Poll;
use mio::event::Event;
use mio::net::{TcpListener, TcpStream};
use sd_edge::{Guest, Guests, LineBuffer, PIECE, Stage};
use sd_event::client_let_go;
use sd_log::RunLog;
use std::alloc::{AllocError, Global};
use std::io::{self, ErrorKind};

/// A place for a client, with room for what it sends.
#[derive(Drop)]
struct Place {
    lines: Option<LineBuffer>,
    client: Option<Client>,
}

/// A client whose turn it is: its place, what it has sent, and how many bytes of what it is told may be held for it.
#[derive(Drop)]
pub(crate) struct Visit {
    pub place: usize,
    pub lines: LineBuffer,
    pub client: Client,
    pub room: usize,
}

/// The clients that are connected, in places whose room is taken when they are made.
#[derive(Drop)]
pub(crate) struct Clients<'a> {
    alloc: Global,
    log: &'a RunLog<'a>,
    /// The port that they came to.
    port: u16,
    places: Vec<Place>,
    guests: Guests,
    /// What is read at a time.
    piece: Vec<u8>,
    /// How many bytes of what they are told may be held for all of them together.
    replies: usize,
    /// A connection that waits for a place.
    newcomer: Option<TcpStream>,
    /// Whether connections may wait at the listener.
    may_accept: bool,
    /// Whether it is the turn of the client who came last.
    is_latest: bool,
    /// Whether a client was lost whom a session had told something.
    has_lost: bool,
}

/// The next connection that waits, if one does. It doesn't block.
///
/// # Errors
///
/// Those of the listener and of the connection.
fn next_connection(listener: &TcpListener) -> io::Result<Option<TcpStream>> {
    match listener.accept() {
        Ok((stream, _)) => {
            stream.set_nodelay(true)?;
            Ok(Some(stream))
        }
        Err(e) if e.kind() == ErrorKind::WouldBlock => Ok(None),
        Err(e) => Err(e),
    }
}

/// How a client stands whose place has these.
fn stage_of(lines: &LineBuffer, client: &Client) -> Stage {
    if client.untaken() > 0 {
        Stage::Unread
    } else if lines.is_ready() {
        Stage::Ready
    } else {
        Stage::Silent
    }
}

/// What became of a client at a look.
#[derive(Clone, Copy)]
enum Fate {
    /// It gave no sign of life.
    Same,
    /// It gave one, and stands so from then on.
    Alive(Stage),
    /// It has left.
    Gone,
    /// Its connection failed.
    Failed,
}

/// How a session of a client ended.
#[derive(Clone, Copy)]
pub(crate) enum Ended {
    /// It was read to its end, and the client stays.
    Read,
    /// It asked for the end of its connection, or can't be understood.
    Asked,
    /// One of its two ends failed.
    Failed,
}

impl Place {
    /// Reads what its client has sent, where that isn't waiting already.
    fn listen(&mut self, piece: &mut [u8]) -> Fate {
        let (Some(lines), Some(client)) = (&mut self.lines, &mut self.client) else {
            return Fate::Same;
        };
        if lines.is_ready() || !client.may_read {
            return Fate::Same;
        }
        let most = piece.len().min(PIECE);
        match client.hear(&mut piece[..most]) {
            Ok(count) => {
                lines.take_in(&piece[..count]);
                Fate::Alive(stage_of(lines, client))
            }
            Err(Unheard::Quiet) => Fate::Same,
            Err(Unheard::End) => Fate::Gone,
            Err(Unheard::Failed) => Fate::Failed,
        }
    }

    /// The same of a client who has just come.
    fn listen_first(&mut self, piece: &mut [u8]) -> Fate {
        match self.listen(piece) {
            Fate::Same => Fate::Alive(Stage::Silent),
            other => other,
        }
    }

    /// Tells its client what it hasn't taken yet, where it may take some.
    fn tell(&mut self, is_retry: bool) -> Fate {
        let (Some(lines), Some(client)) = (&self.lines, &mut self.client) else {
            return Fate::Same;
        };
        if !client.may_write && !is_retry {
            return Fate::Same;
        }
        match client.tell_rest() {
            Taken::All | Taken::Some => Fate::Alive(stage_of(lines, client)),
            Taken::Nothing => Fate::Same,
            Taken::Failed => Fate::Failed,
        }
    }

    /// The same of a client whose connection ends behind that.
    fn tell_last(&mut self, is_retry: bool) -> Fate {
        match self.tell(is_retry) {
            Fate::Alive(Stage::Unread) => Fate::Alive(Stage::Leaving),
            Fate::Alive(_) => {
                if let Some(client) = &mut self.client {
                    client.end_telling();
                }
                Fate::Alive(Stage::Left)
            }
            other => other,
        }
    }

    /// Drops what its client still sends, which would take back what it was told where the connection were closed.
    fn drop_sent(&mut self, piece: &mut [u8]) -> Fate {
        let Some(client) = &mut self.client else {
            return Fate::Same;
        };
        if !client.may_read {
            return Fate::Same;
        }
        match client.hear(piece) {
            Ok(_) | Err(Unheard::Quiet) => Fate::Same,
            Err(Unheard::End | Unheard::Failed) => Fate::Gone,
        }
    }

    /// Whether its client leaves as soon as what it has sent is read.
    fn frees_itself(&self) -> bool {
        match &self.client {
            Some(client) => client.is_ending && client.untaken() == 0,
            None => false,
        }
    }

    /// How many bytes are held for its client.
    fn untaken(&self) -> usize {
        match &self.client {
            Some(client) => client.untaken(),
            None => 0,
        }
    }

    /// Has no client any more.
    fn clear(&mut self) {
        self.client = None;
        if let Some(lines) = &mut self.lines {
            lines.clear();
        }
    }
}

/// Places for so many clients, each with its room.
fn places_for(alloc: Global, sizes: DoorSizes) -> Result<Vec<Place>, AllocError> {
    let mut places = Vec::with_capacity(alloc, sizes.clients)?;
    for _ in 0..sizes.clients {
        places.push(Place {
            lines: Some(LineBuffer::open(alloc, sizes.line, sizes.long_lines)?),
            client: None,
        })?;
    }
    Ok(places)
}

impl<'a> Clients<'a> {
    /// Places for so many clients, each with its room.
    ///
    /// # Errors
    ///
    /// Where no memory is left for them.
    pub(crate) fn open(
        alloc: Global,
        sizes: DoorSizes,
        log: &'a RunLog<'a>,
        port: u16,
    ) -> Result<Clients<'a>, AllocError> {
        Ok(Clients {
            alloc,
            log,
            port,
            places: places_for(alloc, sizes)?,
            guests: Guests::open(alloc, sizes.clients)?,
            piece: vec![in alloc; 0u8; PIECE]?,
            replies: sizes.replies,
            newcomer: None,
            may_accept: true,
            is_latest: false,
            has_lost: false,
        })
    }

    /// Notes what a poll has reported of a place, or of the listener, whose number is behind those of the places.
    pub(crate) fn note(&mut self, event: &Event) {
        match self.places.get_mut(event.token().0) {
            Some(place) => {
                if let Some(client) = &mut place.client {
                    client.note(event);
                }
            }
            None => self.may_accept = true,
        }
    }

    /// The number under which a poll is to report the listener.
    pub(crate) fn listener_number(&self) -> usize {
        self.places.len()
    }

    /// Looks at a client that stands so.
    fn attend(&mut self, guest: Guest, is_retry: bool) -> Fate {
        let Some(place) = self.places.get_mut(guest.place) else {
            return Fate::Same;
        };
        match guest.stage {
            Stage::Free | Stage::Ready => Fate::Same,
            Stage::New => place.listen_first(&mut self.piece),
            Stage::Silent => place.listen(&mut self.piece),
            Stage::Unread => place.tell(is_retry),
            Stage::Leaving => place.tell_last(is_retry),
            Stage::Left => place.drop_sent(&mut self.piece),
        }
    }

    /// A client gives a sign of life, and stands so from then on.
    fn sign(&mut self, place: usize, stage: Stage, now: u64) {
        self.guests.sign(Guest {
            place,
            stage,
            since: now,
        });
    }

    /// Has no client at a place any more.
    fn free(&mut self, place: usize, now: u64) {
        if let Some(place) = self.places.get_mut(place) {
            place.clear();
        }
        self.sign(place, Stage::Free, now);
    }

    /// Looks at the clients, from the one whose last sign of life is the oldest on, up to one whose connection failed.
    pub(crate) fn attend_all(&mut self, now: u64, is_retry: bool) -> Look {
        let mut look = Look::NOTHING;
        let mut number = 0;
        for _ in 0..self.places.len() {
            let Some(guest) = self.guests.get(number) else {
                break;
            };
            match self.attend(guest, is_retry) {
                Fate::Same => number = number.saturating_add(1),
                Fate::Alive(stage) => {
                    self.sign(guest.place, stage, now);
                    look = look.and(Look::NEWS);
                }
                Fate::Gone => {
                    self.free(guest.place, now);
                    look = look.and(Look::NEWS);
                }
                Fate::Failed => {
                    self.free(guest.place, now);
                    return look.and(Look::NEWS).and(Look::FAULT);
                }
            }
        }
        look
    }

    /// The next client that goes since it gave no sign of life for too long, or takes room that others need.
    fn next_overdue(&self, now: u64) -> Option<Guest> {
        if self.room_left() < self.replies / 2 {
            self.guests.stalls(now)
        } else {
            self.guests.overdue(now)
        }
    }

    /// Lets those clients go who gave no sign of life for too long, or take room that others need, up to one that had something to
    /// read, which is a fault.
    pub(crate) fn let_go_overdue(&mut self, now: u64) -> Look {
        let mut look = Look::NOTHING;
        for _ in 0..self.places.len() {
            let Some(guest) = self.next_overdue(now) else {
                break;
            };
            let reason = match guest.stage {
                Stage::Unread | Stage::Leaving => "slow",
                _ => "silent",
            };
            look = look.and(self.let_go(guest, now, reason));
            if look.has_failed {
                break;
            }
        }
        look
    }

    /// Tells the log that a client is let go.
    fn tell_let_go(&self, guest: Guest, reason: &str) {
        let Some(place) = self.places.get(guest.place) else {
            return;
        };
        let Some(client) = &place.client else {
            return;
        };
        if let Some(address) = client.address() {
            client_let_go(self.log, &address, self.port, reason);
        }
    }

    /// Lets a client go.
    fn let_go(&mut self, guest: Guest, now: u64, reason: &str) -> Look {
        self.tell_let_go(guest, reason);
        self.free(guest.place, now);
        match guest.stage {
            Stage::Unread | Stage::Leaving => Look::NEWS.and(Look::FAULT),
            Stage::Free | Stage::New | Stage::Silent | Stage::Ready | Stage::Left => Look::NEWS,
        }
    }

    /// A place for a newcomer: one that is free, or else that of a client who goes, unless one leaves by itself.
    fn place_for_newcomer(&mut self, now: u64) -> (Option<usize>, Look) {
        if let Some(guest) = self.guests.free() {
            return (Some(guest.place), Look::NOTHING);
        }
        if self.places.iter().any(|place| place.frees_itself()) {
            return (None, Look::NOTHING);
        }
        match self.guests.goes(now) {
            Some(guest) => (Some(guest.place), self.let_go(guest, now, "newer")),
            None => (None, Look::NOTHING),
        }
    }

    /// Takes a newcomer, of whom nothing is read yet.
    fn welcome(&mut self, number: usize, stream: TcpStream, poll: &Poll, now: u64) -> Look {
        let mut client = Client::new(self.alloc, stream);
        if client.register(poll, number).is_err() {
            return Look::NEWS.and(Look::FAULT);
        }
        if let Some(place) = self.places.get_mut(number) {
            place.clear();
            place.client = Some(client);
        }
        self.sign(number, Stage::New, now);
        Look::NEWS
    }

    /// Takes the next connection that waits, where there is a place for it.
    fn accept_one(&mut self, listener: &TcpListener, poll: &Poll, now: u64) -> Look {
        if self.newcomer.is_none() && self.may_accept {
            match next_connection(listener) {
                Ok(Some(stream)) => self.newcomer = Some(stream),
                Ok(None) => self.may_accept = false,
                Err(_) => return Look::FAULT,
            }
        }
        if self.newcomer.is_none() {
            return Look::NOTHING;
        }
        let (number, look) = self.place_for_newcomer(now);
        match (number, self.newcomer.take()) {
            (Some(number), Some(stream)) => look.and(self.welcome(number, stream, poll, now)),
            (_, newcomer) => {
                self.newcomer = newcomer;
                look
            }
        }
    }

    /// Takes the connections that wait, as long as there are places and none fails.
    pub(crate) fn accept(&mut self, listener: &TcpListener, poll: &Poll, now: u64) -> Look {
        let mut look = Look::NOTHING;
        for _ in 0..self.places.len() {
            let one = self.accept_one(listener, poll, now);
            look = look.and(one);
            if !one.is_new || one.has_failed {
                break;
            }
        }
        look
    }

    /// Whether a connection waits for a place.
    pub(crate) fn has_newcomer(&self) -> bool {
        self.newcomer.is_some()
    }

    /// Whether a client has sent what a session has.
    pub(crate) fn has_next(&self) -> bool {
        self.guests.next(self.is_latest).is_some()
    }

    /// Whether a client hasn't taken what it was told.
    pub(crate) fn is_telling(&self) -> bool {
        self.places.iter().any(|place| place.untaken() > 0)
    }

    /// How many more bytes may be held.
    fn room_left(&self) -> usize {
        let mut left = self.replies;
        for place in self.places.iter() {
            left = left.saturating_sub(place.untaken());
        }
        left
    }

    /// The next client that has sent what a session has, which leaves its place until it is given back.
    pub(crate) fn next_visit(&mut self) -> Option<Visit> {
        let number = self.guests.next(self.is_latest)?.place;
        self.is_latest = !self.is_latest;
        let room = self.room_left();
        let place = self.places.get_mut(number)?;
        match (place.lines.take(), place.client.take()) {
            (Some(lines), Some(client)) => Some(Visit {
                place: number,
                lines,
                client,
                room,
            }),
            (lines, client) => {
                place.lines = lines;
                place.client = client;
                None
            }
        }
    }

    /// Whether a client was lost whom a session had told something, since this was asked last.
    pub(crate) fn take_lost(&mut self) -> bool {
        let has_lost = self.has_lost;
        self.has_lost = false;
        has_lost
    }

    /// Gives a client back to its place, and its room, and tells it what it was told in its session. It stays, or is told no more, or
    /// is let go.
    pub(crate) fn take_back(
        &mut self,
        number: usize,
        lines: LineBuffer,
        mut client: Client,
        ended: Ended,
        now: u64,
    ) {
        let ended = match client.tell_rest() {
            Taken::Failed => {
                self.has_lost = true;
                Ended::Failed
            }
            Taken::All | Taken::Some | Taken::Nothing => ended,
        };
        let stage = match ended {
            Ended::Read => stage_of(&lines, &client),
            Ended::Asked if client.untaken() > 0 => Stage::Leaving,
            Ended::Asked => {
                client.end_telling();
                Stage::Left
            }
            Ended::Failed => Stage::Free,
        };
        if let Some(place) = self.places.get_mut(number) {
            place.lines = Some(lines);
            place.client = Some(client);
        }
        if stage == Stage::Free {
            self.free(number, now);
        } else {
            self.sign(number, stage, now);
        }
    }
}
