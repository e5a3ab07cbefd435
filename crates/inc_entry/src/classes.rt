ghost use Rattle.std.specs.Prelude.{◌≡◌};
ghost use Rattle.inc_entry.specs.Stored.{is_open_class};

/// What a block map entry says of its block.
#[derive(Clone, Copy, Debug, PartialEq, Eq)]
pub enum Class {
    /// The block hasn't arrived.
    Closed,
    /// The block is there: its first byte, and its number of bytes.
    OpenAt { place: u64, len: u32 },
    /// The block is stored compressed, and isn't read.
    Compressed,
    /// The entry says nothing that can be followed.
    Damaged,
}

impl Class {
    /// Whether the block is there.
    pub fn is_open(&self) -> bool
        ensures value { result ≡ is_open_class self.now }
    {
        matches!(self, Class::OpenAt { .. })
    }
}
