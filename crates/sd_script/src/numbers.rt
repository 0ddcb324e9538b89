ghost use Rattle.std.specs.Prelude.{◌≡◌, ◌+◌, ◌<◌, ◌≤◌, ◌++◌, length, ◌*◌, ◌%◌};
ghost use Rattle.std.specs.List.{join_with_byte};
ghost use Rattle.arrayvec.specs.ArrayVec.{array_vec_len};
ghost use Rattle.sd_model_replay.specs.MadeScript.{made_line};

use crate::text::push_text;
use sd_decimal::{Line, write_whole};

/// Each number of the sequence is below it.
pub(crate) const MODULUS: u32 = 65537;

/// The number that follows in the sequence.
fn next_number(x: u32) -> u32
    requires { x < MODULUS }
    ensures next { result ≡ ((75 * x + 74) % 65537) }
    ensures bound { result < MODULUS }
{
    (75 * x + 74) % MODULUS
}

/// The numbers of the lines of a packet.
#[derive(Clone, Copy)]
pub(crate) struct Numbers {
    counter: u32,
    timer: u32,
    gauge: u32,
    pub(crate) set: u32,
}

impl Numbers {
    ghost use Rattle.std.specs.Prelude.{◌≡◌, ◌<◌, ◌≤◌};
    ghost use Rattle.std.specs.List.{join_with_byte};
    ghost use Rattle.arrayvec.specs.ArrayVec.{array_vec_len};
    ghost use Rattle.sd_model_replay.specs.MadeScript.{made_lines};

    /// The four numbers that follow the last one that was used.
    pub(crate) fn after(last: u32) -> Numbers
        requires { last < MODULUS }
        ensures counter { result.counter ≡ ((75 * last + 74) % 65537) }
        ensures timer { result.timer ≡ ((75 * result.counter + 74) % 65537) }
        ensures gauge { result.gauge ≡ ((75 * result.timer + 74) % 65537) }
        ensures set { result.set ≡ ((75 * result.gauge + 74) % 65537) }
        ensures bound { result.set < MODULUS }
    {
        let counter = next_number(last);
        let timer = next_number(counter);
        let gauge = next_number(timer);
        Numbers {
            counter,
            timer,
            gauge,
            set: next_number(gauge),
        }
    }

    /// The lines of the numbers, with newlines between them.
    pub(crate) fn datagram(self) -> Line
        ensures lines { result.items ≡ join_with_byte 10 (made_lines self.counter self.timer self.gauge self.set) }
        ensures len { array_vec_len result ≤ 400 }
    {
        let mut datagram = Line::new();
        push_line(b"c", b"c", self.counter, &mut datagram);
        datagram.push(b'\n');
        push_line(b"t", b"ms", self.timer, &mut datagram);
        datagram.push(b'\n');
        push_line(b"g", b"g", self.gauge, &mut datagram);
        datagram.push(b'\n');
        push_line(b"s", b"s", self.set, &mut datagram);
        datagram
    }
}

/// Appends the line of a number.
fn push_line(letter: &[u8], kind: &[u8], x: u32, out: &mut Line)
    requires letter { length letter.now ≤ 1 }
    requires kind { length kind.now ≤ 2 }
    requires room { array_vec_len out.old ≤ 900 }
    ensures line { out.new.items ≡ out.old.items ++ made_line letter.now kind.now x }
    ensures len { array_vec_len out.new ≤ array_vec_len out.old + 89 }
{
    push_text(b"drill.", out);
    push_text(letter, out);
    write_whole(u128::from(x / 4 % 1000), out);
    out.push(b':');
    write_whole(u128::from(x % 1000), out);
    out.push(b'|');
    push_text(kind, out);
}
