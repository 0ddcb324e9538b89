ghost use Rattle.std.specs.Prelude.{◌≡◌, ◌≤◌, ◌^◌};
ghost use Rattle.sd_model_record.specs.Desk.{counted as counted_up};

/// Where counts stop.
const LAST_COUNT: u64 = 1 << 63;

/// A count with more, up to its end.
pub(crate) fn counted(n: u64, more: u64) -> u64
    ensures value { result ≡ counted_up n more }
    ensures bound { result ≤ 2 ^ 63 }
{
    n.saturating_add(more).min(LAST_COUNT)
}
