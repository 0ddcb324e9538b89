ghost use Rattle.std.specs.Prelude.{◌≡◌, ◌≤◌};
ghost use Rattle.sd_outside.specs.Turns.{raised};

/// Counts a turn of an object, up to 2^64 - 1.
pub fn take_turn(turns: &mut u64)
    ensures counted { turns.new ≡ raised turns.old }
    ensures stays { turns.old ≤ turns.new }
{
    *turns = turns.saturating_add(1);
}
