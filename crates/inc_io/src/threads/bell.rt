/// What threads rest at until there is something to do. No clause says that a rest ends, or how long it takes.
pub trait Bell {
    /// How often it has rung. Who looks first and rests at this number afterwards misses no ring.
    fn seen(&self) -> u64;

    /// Wakes all who rest.
    fn ring(&self);

    /// Rests until it has rung more often than `seen`, or the clock has come to `until`.
    fn rest(&self, seen: u64, until: u64);
}
