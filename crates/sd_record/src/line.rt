ghost use Rattle.std.specs.Prelude.{◌≡◌, ◌+◌, ◌≤◌, ◌∷◌, ◌++◌, length, map, decimal, OnOk, OnErr};
ghost use Rattle.std.specs.List.{concat};
ghost use Rattle.arrayvec.specs.ArrayVec.{array_vec_len};
ghost use Rattle.sd_model_text.specs.Numbers.{number_text};
ghost use Rattle.sd_model_outside.specs.Outside.{HasFailedBehind, given};

use sd_decimal::{Line, Sum, write, write_whole};
use sd_outside::{Failed, Sink, WriteFault, write_all};

/// Appends bytes for which there is room.
pub fn push_text(text: &[u8], line: &mut Line)
    requires { array_vec_len line.old + length text.now ≤ 1024 }
    ensures text { line.new.items ≡ line.old.items ++ text.now }
    ensures len { array_vec_len line.new ≡ array_vec_len line.old + length text.now }
{
    line.try_extend_from_slice(text).unwrap();
}

/// Appends a space and a number.
pub fn push_number(number: Sum, line: &mut Line)
    requires { array_vec_len line.old ≤ 800 }
    ensures text { line.new.items ≡ line.old.items ++ 32 ∷ number_text number.0 }
    ensures len { array_vec_len line.new ≤ array_vec_len line.old + 42 }
{
    line.push(b' ');
    write(number, line);
}

/// Appends a space and a whole number.
pub fn push_whole(number: u64, line: &mut Line)
    requires { array_vec_len line.old ≤ 800 }
    ensures text { line.new.items ≡ line.old.items ++ 32 ∷ decimal number }
    ensures len { array_vec_len line.new ≤ array_vec_len line.old + 40 }
{
    line.push(b' ');
    write_whole(u128::from(number), line);
}

/// Writes a line.
///
/// # Errors
///
/// `WriteFault` where the sink failed. Then a prefix of the line was appended.
pub fn write_line<K: Sink>(line: &Line, sink: &mut K) -> Result<(), WriteFault>
    ensures ok { OnOk result (K.seen sink.new ≡ given line.now.items (K.seen sink.old)) }
    ensures failed { OnErr result (HasFailedBehind line.now.items (K.seen sink.old) (K.seen sink.new)) }
{
    match write_all(sink, line.as_slice()) {
        Ok(()) => Ok(()),
        Err(Failed) => Err(WriteFault),
    }
}

/// Writes lines, one after another.
///
/// # Errors
///
/// `WriteFault` where the sink failed. Then a prefix of the lines was appended.
pub fn write_lines<K: Sink>(lines: &[Line], sink: &mut K) -> Result<(), WriteFault>
    ensures ok { OnOk result (K.seen sink.new ≡ given (concat (map (λ line. line.items) lines.now)) (K.seen sink.old)) }
    ensures failed { OnErr result (HasFailedBehind (concat (map (λ line. line.items) lines.now)) (K.seen sink.old) (K.seen sink.new)) }
{
    for line in lines {
        write_line(line, sink)?;
    }
    Ok(())
}
