ghost use Rattle.std.specs.Prelude.{◌≡◌, ◌+◌, ◌/◌, ◌%◌, ◌^◌, ◌<◌, ◌≤◌, ◌++◌};
ghost use Rattle.arrayvec.specs.ArrayVec.{array_vec_len};
ghost use Rattle.sd_model_replay.specs.Script.{Flush, Packet, script_text, spelled};
ghost use Rattle.sd_model_replay.specs.MadeScript.{flush_behind, made_moment};
ghost use Rattle.sd_script.specs.Texts.{end_behind};

use crate::text::{push_field, push_text};
use sd_decimal::Line;

/// How many receivers get the packets in turn.
const RECEIVERS: u32 = 2;

/// A flush stands behind each packet of that many.
const FLUSH_EVERY: u32 = 1000;

/// The moment behind so many flushes.
fn moment(flushes: u32) -> u32
    requires { made_moment flushes < 2 ^ 32 }
    ensures { result ≡ made_moment flushes }
{
    1000 + 10 * flushes
}

/// Appends the record of the packet at a place, counted from 0, with its datagram.
pub(crate) fn push_packet(place: u32, datagram: &Line, out: &mut Line)
    requires datagram { array_vec_len datagram.now ≤ 400 }
    requires room { array_vec_len out.old ≤ 400 }
    ensures record { out.new.items
        ≡ out.old.items ++ spelled (Packet (place % 2) (made_moment (place / 1000)) datagram.now.items) }
    ensures len { array_vec_len out.new ≤ array_vec_len out.old + 523 }
{
    out.push(b'P');
    push_field(u64::from(place % RECEIVERS), out);
    push_field(u64::from(moment(place / FLUSH_EVERY)), out);
    push_field(datagram.len() as u64, out);
    out.push(b'\n');
    push_text(datagram, out);
    out.push(b'\n');
}

/// Appends the record of a flush at a moment.
fn push_flush(moment: u32, out: &mut Line)
    requires { array_vec_len out.old ≤ 900 }
    ensures record { out.new.items ≡ out.old.items ++ spelled (Flush moment) }
    ensures len { array_vec_len out.new ≤ array_vec_len out.old + 42 }
{
    out.push(b'F');
    push_field(u64::from(moment), out);
    out.push(b'\n');
}

/// Appends the record of the flush behind the packet at a place, where there is one.
pub(crate) fn push_flush_behind(place: u32, packets: u32, out: &mut Line)
    requires place { place < packets }
    requires room { array_vec_len out.old ≤ 900 }
    ensures records { out.new.items ≡ out.old.items ++ script_text (flush_behind packets place) }
    ensures len { array_vec_len out.new ≤ array_vec_len out.old + 42 }
{
    let behind = place + 1;
    if behind.is_multiple_of(FLUSH_EVERY) || behind == packets {
        push_flush(moment(place / FLUSH_EVERY + 1), out);
    }
}

/// Appends the word that ends the script, where the packet at a place is the last.
pub(crate) fn push_end_behind(place: u32, packets: u32, out: &mut Line)
    requires place { place < packets }
    requires room { array_vec_len out.old ≤ 1000 }
    ensures { out.new.items ≡ out.old.items ++ end_behind packets place }
{
    if place + 1 == packets {
        push_text(b"E\n", out);
    }
}
