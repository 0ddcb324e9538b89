ghost use Rattle.std.specs.Prelude.{◌≡◌, ◌-◌};

/// What is left of a time limit, by when it began and what the time is, all in milliseconds. 0 where it is over; the whole limit
/// where the clock went back.
pub fn left_of(limit: u64, began: u64, now: u64) -> u64
    ensures { result ≡ limit - (now - began) }
{
    limit.saturating_sub(now.saturating_sub(began))
}
