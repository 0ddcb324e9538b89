ghost use Rattle.std.specs.Prelude.{◌≡◌, ◌↔◌, IsTrue, Contains};
ghost use Rattle.sd_outside.specs.Turns.{raised};

/// Counts a call, and answers whether its number is among those that are to fail.
pub(crate) fn next_call_fails(calls: &mut u64, listed: &[u64]) -> bool
    ensures counted { calls.new ≡ raised calls.old }
    ensures listed { IsTrue result ↔ Contains listed.now calls.new }
{
    *calls = calls.saturating_add(1);
    listed.contains(calls)
}
