ghost use Rattle.std.specs.Prelude.{◌≡◌, ◌≢◌, ◌+◌, ◌<◌, ◌≤◌, ◌^◌, length, vec_len, vec_capacity};
ghost use Rattle.inc_frame.specs.Frames.{frame_length};
ghost use Rattle.inc_frame.specs.declared.fault.FrameFault.TheVariants.{OutOfMemory};
ghost use Rattle.inc_frame.specs.declared.stage.TheConstants.{HEAD_LEN, HELLO_LEN, MOST_BYTES};

use crate::FrameFault;

/// The number of bytes of a hello.
pub const HELLO_LEN: usize = 8;

/// The number of bytes of a frame before those of its block.
pub const HEAD_LEN: usize = 25;

/// The greatest number of a block's bytes.
pub const MOST_BYTES: usize = 4096;

/// Where a reader stands in its stream.
#[derive(Drop)]
pub enum ReadStage {
    Hello(HelloPart),
    Head(HeadPart),
    Body(BodyPart),
    /// The end has come, after so many bytes.
    Ended(u64),
    Failed(Failure),
}

/// A hello that isn't whole.
#[derive(Clone, Copy)]
pub struct HelloPart {
    /// Its bytes, of which the first `have` have come.
    pub seen: [u8; HELLO_LEN],
    pub have: usize,
    pub ghost sized: { length seen ≡ HELLO_LEN },
    pub ghost missing: { have < HELLO_LEN },
}

/// A frame of which not all bytes before the block's have come.
#[derive(Clone, Copy)]
pub struct HeadPart {
    /// By how many bytes the stream has to have its end.
    pub limit: u64,
    /// How many bytes of the stream have come.
    pub place: u64,
    /// The frame's first bytes, of which the first `have` have come.
    pub head: [u8; HEAD_LEN],
    pub have: usize,
    pub ghost missing: { have < HEAD_LEN },
    pub ghost within: { place < limit },
    pub ghost low: { limit ≤ 2 ^ 36 },
    pub ghost behind_hello: { have + HELLO_LEN ≤ place },
}

/// A frame of which not all of the block's bytes have come.
#[derive(Drop)]
pub struct BodyPart {
    pub limit: u64,
    pub place: u64,
    pub head: [u8; HEAD_LEN],
    /// The number of the block's bytes.
    pub size: usize,
    /// Those that have come. There is room for all, so that a later call can't fail over them.
    pub body: Vec<u8>,
    pub ghost sized: { size ≡ frame_length head },
    pub ghost small: { size ≤ MOST_BYTES },
    pub ghost missing: { vec_len body < size },
    pub ghost room: { size ≤ vec_capacity body },
    pub ghost within: { place < limit },
    pub ghost low: { limit ≤ 2 ^ 36 },
    pub ghost behind_head: { HELLO_LEN + HEAD_LEN ≤ place },
}

/// A fault of the stream.
#[derive(Clone, Copy)]
pub struct Failure {
    pub fault: FrameFault,
    pub ghost of_stream: { fault ≢ OutOfMemory },
}
