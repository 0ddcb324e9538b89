/// A clock.
pub trait Clock {
    ghost use Rattle.std.specs.Prelude.{ℕ};

    /// It may answer this moment.
    ghost may_say: { Self → ℕ → Type 0 };

    /// The time, in Unix seconds.
    fn now(&self) -> u64
        ensures { may_say self.now result };

    /// The moment of a server's last flush, in Unix seconds. It is asked once, after all other calls.
    fn last(&self) -> u64
        ensures { may_say self.now result };
}
