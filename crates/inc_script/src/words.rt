// The words of faults: a fault's name in small letters with dashes.
ghost use Rattle.std.specs.Prelude.{◌≡◌};
ghost use Rattle.inc_script.specs.Words.{fill_word, frame_word, script_word};

use crate::ScriptFault;
use inc_frame::FrameFault;
use inc_model::FillError;

/// The word of a script's refusal. Want of memory has none.
#[tactic(auto, unfolding(crate::specs::Words::script_word))]
pub fn script_word(fault: ScriptFault) -> &'static [u8]
    ensures value { result.now ≡ script_word fault }
{
    match fault {
        ScriptFault::TooLong => b"too-long",
        ScriptFault::BadLine { .. } => b"bad-line",
        ScriptFault::TooMany { .. } => b"too-many",
        ScriptFault::NoEnd { .. } => b"no-end",
        ScriptFault::OutOfMemory => b"",
    }
}

/// The word of a stream's refusal. Want of memory has none.
#[tactic(auto, unfolding(crate::specs::Words::frame_word))]
pub fn frame_word(fault: FrameFault) -> &'static [u8]
    ensures value { result.now ≡ frame_word fault }
{
    match fault {
        FrameFault::BadHello { .. } => b"bad-hello",
        FrameFault::BadKind { .. } => b"bad-kind",
        FrameFault::BadLength { .. } => b"bad-length",
        FrameFault::Cut { .. } => b"cut",
        FrameFault::TooLong { .. } => b"too-long",
        FrameFault::OutOfMemory => b"",
    }
}

/// The word of a fill's refusal. Want of memory has none.
#[tactic(auto, unfolding(crate::specs::Words::fill_word))]
pub fn fill_word(error: FillError) -> &'static [u8]
    ensures value { result.now ≡ fill_word error }
{
    match error {
        FillError::NoPermission => b"no-permission",
        FillError::OutOfRange { .. } => b"out-of-range",
        FillError::Compressed { .. } => b"compressed",
        FillError::BadLength { .. } => b"bad-length",
        FillError::Damaged { .. } => b"damaged",
        FillError::OutOfMemory => b"",
        FillError::HistoryFull { .. } => b"history-full",
        FillError::Failed { .. } => b"failed",
        FillError::DiskFault { .. } => b"disk-fault",
    }
}
