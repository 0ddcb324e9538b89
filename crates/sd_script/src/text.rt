ghost use Rattle.std.specs.Prelude.{◌≡◌, ◌+◌, ◌≤◌, ◌∷◌, ◌++◌, length, decimal};
ghost use Rattle.arrayvec.specs.ArrayVec.{array_vec_len};

use sd_decimal::{Line, write_whole};

/// Appends bytes for which there is room.
pub(crate) fn push_text(text: &[u8], out: &mut Line)
    requires { array_vec_len out.old + length text.now ≤ 1024 }
    ensures text { out.new.items ≡ out.old.items ++ text.now }
    ensures len { array_vec_len out.new ≡ array_vec_len out.old + length text.now }
{
    out.try_extend_from_slice(text).unwrap();
}

/// Appends a space and a whole number.
pub(crate) fn push_field(number: u64, out: &mut Line)
    requires { array_vec_len out.old ≤ 980 }
    ensures text { out.new.items ≡ out.old.items ++ 32 ∷ decimal number }
    ensures len { array_vec_len out.new ≤ array_vec_len out.old + 40 }
{
    out.push(b' ');
    write_whole(u128::from(number), out);
}
