//! A gate that holds some of those who pass it up until others have come.
use sd_case::{Answer, Refusal, number};
use sd_outside::Gate;
use std::alloc::{AllocError, Global};
use std::sync::atomic::AtomicU64;
use std::sync::atomic::Ordering::SeqCst;
use std::thread;

/// How many places it has: those of the workers, and those of objects.
const PLACES: usize = 12;

/// How often someone who waits looks.
pub(crate) const MOST_WAITS: u64 = 100_000_000;

/// From a pass of a place on, those who pass it wait until another place was passed so often.
#[derive(Clone, Copy)]
struct Hold {
    place: u8,
    from: u64,
    until: u8,
    passes: u64,
}

/// Who is to be held up, and the places whose passes are noted, bit by bit.
#[derive(Drop)]
pub(crate) struct Holds {
    holds: Vec<Hold>,
    noted: u64,
}

/// The pass that is written as `PLACE.NUMBER`.
fn pass_of(text: &str) -> Result<(u8, u64), Refusal> {
    let (place, passes) = text.split_once('.').ok_or(Refusal::Malformed)?;
    Ok((number(place)?, number(passes)?))
}

/// The bit of the place that a word writes.
fn bit_of(word: &str) -> Result<u64, Refusal> {
    let place = number::<u8>(word)?;
    if usize::from(place) < PLACES {
        Ok(1 << place)
    } else {
        Err(Refusal::Malformed)
    }
}

impl Holds {
    /// Nobody is held up, and nothing is noted.
    pub(crate) fn none(alloc: Global) -> Holds {
        Holds {
            holds: Vec::new(alloc),
            noted: 0,
        }
    }

    /// Takes `PLACE.NUMBER/PLACE.NUMBER`: who passes the first place, from that pass on, waits for the second.
    pub(crate) fn hold(&mut self, text: &str) -> Result<(), Refusal> {
        let (held, awaited) = text.split_once('/').ok_or(Refusal::Malformed)?;
        let (place, from) = pass_of(held)?;
        let (until, passes) = pass_of(awaited)?;
        self.holds.push(Hold {
            place,
            from,
            until,
            passes,
        })?;
        Ok(())
    }

    /// Takes `PLACE,PLACE..`: the places whose passes are noted.
    pub(crate) fn note(&mut self, text: &str) -> Result<(), Refusal> {
        for word in text.split(',') {
            self.noted |= bit_of(word)?;
        }
        Ok(())
    }
}

/// A gate that counts how often each place is passed, and by that holds some up.
#[derive(Drop)]
pub(crate) struct Order {
    holds: Vec<Hold>,
    noted: u64,
    passes: Vec<AtomicU64>,
    in_vain: AtomicU64,
    notes: AtomicU64,
}

impl Order {
    /// A gate that nobody has passed.
    pub(crate) fn of(alloc: Global, given: &Holds) -> Result<Order, AllocError> {
        let mut passes = Vec::new(alloc);
        for _ in 0..PLACES {
            passes.push(AtomicU64::new(0))?;
        }
        Ok(Order {
            holds: given.holds.clone()?,
            noted: given.noted,
            passes,
            in_vain: AtomicU64::new(0),
            notes: AtomicU64::new(0),
        })
    }

    /// Counts one who comes to a place, and answers how many had come.
    pub(crate) fn come(&self, place: u8) -> u64 {
        if self.noted >> u32::from(place & 63) & 1 == 1 {
            self.write_down(place);
        }
        match self.passes.get(usize::from(place)) {
            Some(passes) => passes.fetch_add(1, SeqCst),
            None => 0,
        }
    }

    /// Notes a pass behind those before it.
    fn write_down(&self, place: u8) {
        let before = self.notes.load(SeqCst);
        let now = before
            .wrapping_mul(16)
            .wrapping_add(u64::from(place).saturating_add(1));
        self.notes.store(now, SeqCst);
    }

    /// How many have come to a place.
    fn come_to(&self, place: u8) -> u64 {
        match self.passes.get(usize::from(place)) {
            Some(passes) => passes.load(SeqCst),
            None => 0,
        }
    }

    /// Waits until so many have come to a place, or it has looked very often.
    fn wait(&self, place: u8, passes: u64) {
        for _ in 0..MOST_WAITS {
            if self.come_to(place) >= passes {
                return;
            }
            thread::yield_now();
        }
        self.in_vain.fetch_add(1, SeqCst);
    }

    /// Whether the next who passes a place would have to wait.
    pub(crate) fn holds_up(&self, place: u8) -> bool {
        let next = self.come_to(place).saturating_add(1);
        self.holds.iter().any(|hold| hold.place == place
            && hold.from <= next
            && self.come_to(hold.until) < hold.passes)
    }

    /// Appends the places that were noted, in order, the last sixteen of them.
    fn show_notes(&self, out: &mut Answer) {
        let mut rest = self.notes.load(SeqCst);
        for _ in 0..16 {
            let mark = rest >> 60 & 15;
            rest = rest.wrapping_mul(16);
            if mark > 0 {
                out.count(" ", mark.saturating_sub(1));
            }
        }
    }

    /// Appends the notes, where any were asked for, and how many waited in vain, where any did.
    pub(crate) fn show(&self, out: &mut Answer) {
        if self.noted > 0 {
            out.text("\n  places:");
            self.show_notes(out);
        }
        let in_vain = self.in_vain.load(SeqCst);
        if in_vain > 0 {
            out.count("\n  waited in vain: ", in_vain);
        }
    }
}

impl Gate for Order {
    fn pass(&self, place: u8) {
        let before = self.come(place);
        for hold in &self.holds {
            if hold.place == place && hold.from <= before.saturating_add(1) {
                self.wait(hold.until, hold.passes);
            }
        }
    }
}
