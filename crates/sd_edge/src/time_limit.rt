ghost use Rattle.std.specs.Prelude.{◌≡◌, ◌*◌, ◌/◌, ◌+◌, min, max};
ghost use Rattle.sd_edge.specs.Times.{delivery_end, left_at, reached, shown};

/// How long one delivery may take at most, in milliseconds, where flushes are this many apart: four fifths of it, 2,000 at least and
/// 60,000 at most.
pub fn delivery_limit(interval_ms: u32) -> u64
    ensures { result ≡ max 2000 (min 60000 (interval_ms * 4 / 5)) }
{
    (u64::from(interval_ms) * 4 / 5).min(60_000).max(2_000)
}

/// How long the text of a flush may wait for who reads standard output, in milliseconds, where flushes are this many apart: a fifth
/// of it, and 1,000 at most.
pub fn text_limit(interval_ms: u32) -> u64
    ensures { result ≡ min 1000 (interval_ms / 5) }
{
    (u64::from(interval_ms) / 5).min(1_000)
}

/// Up to when something may take its time.
#[derive(Clone, Copy, Debug, PartialEq, Eq)]
pub struct TimeLimit {
    pub end: u64,
}

impl TimeLimit {
    /// So long from a moment on.
    pub fn after(moment: u64, span: u64) -> TimeLimit
        ensures { result.end ≡ shown (moment + span) }
    {
        TimeLimit {
            end: moment.saturating_add(span),
        }
    }

    /// The earlier of two.
    pub fn and(self, other: TimeLimit) -> TimeLimit
        ensures { result.end ≡ min self.end other.end }
    {
        TimeLimit {
            end: self.end.min(other.end),
        }
    }

    /// The later of two.
    pub fn or(self, other: TimeLimit) -> TimeLimit
        ensures { result.end ≡ max self.end other.end }
    {
        TimeLimit {
            end: self.end.max(other.end),
        }
    }

    /// How much is left, where something is.
    pub fn left(self, now: u64) -> Option<u64>
        ensures { result ≡ left_at self.end now }
    {
        if now < self.end {
            Some(self.end - now)
        } else {
            None
        }
    }

    /// What each of several tries has, where they share what is left: one at least, and one of them where there is none.
    pub fn share(self, now: u64, tries: usize) -> Option<u64>
        ensures { result ≡ reached (left_at self.end now) tries }
    {
        let left = self.left(now)?;
        Some((left / (tries.max(1) as u64)).max(1))
    }
}

/// A delivery that has begun, and how long it may take.
#[derive(Clone, Copy, Debug, PartialEq, Eq)]
pub struct Delivery {
    pub began: u64,
    pub limit: u64,
}

/// How long a delivery that was under way at a stop may still take, in milliseconds.
const UNDER_WAY: u64 = 4_000;

/// How long behind a stop all deliveries end, in milliseconds.
const LAST: u64 = 8_500;

impl Delivery {
    /// Up to when it may take: its limit, and behind a stop so long at most that another one has its time, and a stop its end.
    pub fn ends(self, stop: Option<u64>) -> TimeLimit
        ensures { result.end ≡ delivery_end self.began self.limit stop }
    {
        let own = TimeLimit::after(self.began, self.limit);
        match stop {
            None => own,
            Some(stop) if self.began < stop => own.and(TimeLimit::after(stop, UNDER_WAY)),
            Some(stop) => own.and(TimeLimit::after(stop, LAST)),
        }
    }
}
