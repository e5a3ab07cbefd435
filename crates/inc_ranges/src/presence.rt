// Which indices are filled.
ghost use Rattle.std.specs.Prelude.{◌≡◌, ◌<◌, Bool, List, length};
ghost use Rattle.inc_ranges.specs.Runs.{is_filled};

/// What tells of each index of a file whether it is filled.
pub trait Presence {
    ghost present: { Self → List Bool };

    /// The number of indices.
    fn count(&self) -> usize
        ensures value { result ≡ length (present self.now) };

    fn is_filled(&self, index: u32) -> bool
        requires inside { index < length (present self.now) }
        ensures value { result ≡ is_filled (present self.now) index };
}

/// A list with a place for each index.
impl Presence for &[bool] {
    ghost present = { λ list. list.now };

    fn count(&self) -> usize {
        self.len()
    }

    fn is_filled(&self, index: u32) -> bool {
        self[index as usize]
    }
}
