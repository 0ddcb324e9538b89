ghost use Rattle.std.specs.Prelude.{◌≡◌, ◌*◌, ◌<◌, ◌≤◌, ◌++◌};
ghost use Rattle.arrayvec.specs.ArrayVec.{array_vec_len};
ghost use Rattle.sd_model_replay.specs.MadeScript.{made_number, made_commands};
ghost use Rattle.sd_script.specs.declared.numbers.TheConstants.{MODULUS};
ghost use Rattle.sd_model_replay.specs.Script.{script_text, end_word};

use crate::numbers::Numbers;
use crate::records::{push_end_behind, push_flush_behind, push_packet};
use sd_decimal::Line;
use sd_outside::{Address, Failed, Faulty, Source, Unfailing};

/// How many packets a drill has at most.
pub const MOST_PACKETS: u32 = 100_000;

/// The source that gives the made script of so many packets, and makes it as it is read. It takes no memory, and
/// never fails.
#[derive(Drop)]
pub struct Drill {
    packets: u32,
    /// The place of the next packet, counted from 0.
    next: u32,
    /// The last number of the sequence that was used.
    last: u32,
    /// The text at hand: that of a packet, with what stands behind it before the next one.
    text: Line,
    /// How many bytes of the text at hand were given.
    given: usize,
    opened_at: Option<Address>,
    ghost next_within: { next ≤ packets },
    ghost on_sequence: { last ≡ made_number (4 * next) },
    ghost last_within: { last < MODULUS },
    ghost given_within: { given ≤ array_vec_len text },
}

impl Drill {
    ghost use Rattle.std.specs.Prelude.{◌≡◌, ◌<◌, ◌≤◌, None, []};
    ghost use Rattle.sd_model_outside.specs.Outside.{Left, fresh};
    ghost use Rattle.sd_script.specs.Drill.{at_hand, left_of};
    ghost use Rattle.sd_script.specs.Texts.{text_at};

    /// The source of the made script of n packets.
    pub fn new(n: u32) -> Drill
        requires some { 0 < n }
        requires most { n ≤ MOST_PACKETS }
        ensures { ⟦<Drill as Faulty>⟧.seen result ≡ fresh (Left (script_text (made_commands n) ++ end_word)) }
    {
        Drill {
            packets: n,
            next: 0,
            last: 1,
            text: Line::new(),
            given: 0,
            opened_at: None,
        }
    }

    /// Makes the text of the next packet, in place of one that was given whole.
    fn make_next(&mut self)
        requires given { at_hand self.old ≡ [] }
        requires next { self.old.next < self.old.packets }
        ensures text { at_hand self.new ≡ text_at self.old.packets self.old.next }
        ensures left { left_of self.new ≡ left_of self.old }
        ensures opened_at { self.new.opened_at ≡ self.old.opened_at }
    {
        let numbers = Numbers::after(self.last);
        let place = self.next;
        self.text.clear();
        push_packet(place, &numbers.datagram(), &mut self.text);
        push_flush_behind(place, self.packets, &mut self.text);
        push_end_behind(place, self.packets, &mut self.text);
        self.given = 0;
        self.next = place + 1;
        self.last = numbers.set;
    }

    /// Makes the text of the next packet where none is at hand, so that there is none only at the end of the script.
    fn refill(&mut self)
        ensures left { left_of self.new ≡ left_of self.old }
        ensures end { at_hand self.new ≡ [] → left_of self.new ≡ [] }
        ensures opened_at { self.new.opened_at ≡ self.old.opened_at }
    {
        if self.given == self.text.len() && self.next < self.packets {
            self.make_next();
        }
    }
}

impl Unfailing for Drill {
    ghost use Rattle.sd_script.specs.Drill.{seen_of};

    ghost shown = { seen_of };

    fn note(&mut self, at: &Address) {
        self.opened_at = Some(at.copied());
    }
}

impl Source for Drill {
    ghost use Rattle.std.specs.Prelude.{◌≡◌, ◌<◌, length, IsOkAnd};
    ghost use Rattle.sd_script.specs.Drill.{Gives};

    fn read(&mut self, buf: &mut [u8]) -> Result<usize, Failed>
        requires { 0 < length buf.old }
        ensures { IsOkAnd result (Gives self.old self.new buf.old buf.new) }
    {
        self.refill();
        let rest = &self.text[self.given..];
        let count = rest.len().min(buf.len());
        buf[..count].copy_from_slice(&rest[..count]);
        self.given += count;
        Ok(count)
    }
}
