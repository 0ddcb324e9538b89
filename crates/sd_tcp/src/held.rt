//! The bytes that are held of a line.
ghost use Rattle.std.specs.Prelude.{◌≡◌, ◌≤◌, vec_capacity, vec_len};
ghost use Rattle.sd_model_text.specs.Lines.{longest_datagram};
ghost use Rattle.sd_tcp.specs.Cutting.{longer};
ghost use Rattle.sd_tcp.specs.Held.{line_held};

use crate::cut::MOST_BYTES;

/// Puts bytes behind those of a line, or holds none of it where it is too long then. It takes no memory.
pub(crate) fn lengthen(line: &mut Vec<u8>, is_long: &mut bool, bytes: &[u8])
    requires few { vec_len line.old ≤ longest_datagram }
    requires room { longest_datagram ≤ vec_capacity line.old }
    ensures few { vec_len line.new ≤ longest_datagram }
    ensures room { longest_datagram ≤ vec_capacity line.new }
    ensures line { line_held is_long.new line.new.items ≡ longer (line_held is_long.old line.old.items) bytes.now }
{
    if *is_long {
        return;
    }
    if bytes.len() > MOST_BYTES - line.len() {
        line.clear();
        *is_long = true;
    } else {
        line.extend_from_slice(bytes).unwrap();
    }
}
