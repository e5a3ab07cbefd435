ghost use Rattle.std.specs.Prelude.{ℕ};

/// A clock that counts microseconds.
pub trait Clock {
    /// The numbers that it may answer.
    ghost may_answer: { Self → ℕ → Type 0 };

    fn now(&self) -> u64
        ensures possible { may_answer self.now result };
}
