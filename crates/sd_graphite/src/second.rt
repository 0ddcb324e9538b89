ghost use Rattle.std.specs.Prelude.{◌≡◌, ◌≤◌, ◌∷◌, ◌++◌, [], decimal};
ghost use Rattle.arrayvec.specs.ArrayVec.{array_vec_len};

use sd_decimal::Line;
use sd_record::{push_text, push_whole};
use std::marker::Model;

/// The Unix second of a text, with what stands behind the number in each of its lines, so that its digits are made once.
#[derive(Drop)]
pub(crate) struct Second {
    ts: u64,
    text: Line,
}

impl Model for Second {
    ghost use Rattle.std.specs.Prelude.{ℕ};

    ghost Value = { ℕ };

    ghost use Rattle.sd_graphite.specs.SecondInside.{IsSecond};

    ghost view = { λ s. s.ts };

    ghost invariant = { IsSecond };
}

impl Second {
    /// A Unix second.
    pub(crate) fn of(ts: u64) -> Second
        ensures { result ≡ ts }
    {
        let mut text = Line::new();
        push_whole(ts, &mut text);
        text.push(b'\n');
        Second { ts, text }
    }

    /// Appends a space, the second, and the end of a line.
    pub(crate) fn push(&self, line: &mut Line)
        requires { array_vec_len line.old ≤ 800 }
        ensures { line.new.items ≡ line.old.items ++ 32 ∷ decimal self.now ++ 10 ∷ [] }
    {
        push_text(self.text.as_slice(), line);
    }
}
