ghost use Rattle.std.specs.Prelude.{◌≡◌, ◌≢◌, ◌⊎◌, IfOk, IfErr, Err};
ghost use Rattle.inc_layout.specs.opening.Faults.{IsOwnFault};
ghost use Rattle.inc_layout.specs.declared.fault.LayoutFault.TheVariants.{ReadFault as layout_read_fault};
ghost use Rattle.inc_layout.specs.declared.reading.static_error.StaticError.TheVariants.{ReadFault as block_read_fault};
ghost use Rattle.inc_words.specs.Endings.{EndsAs, not_shown_by, refused, refused_by, stream_refused};
ghost use Rattle.inc_words.specs.Refusals.{layout_word, reason_of};
ghost use Rattle.inc_words.specs.declared.stop.Stop.TheVariants.{Fault as stop_fault, OutOfMemory as stop_out_of_memory};

use crate::Status;
use crate::stop::Stop;
use crate::texts::lines::{block_line, refused_line, stream_line};
use crate::texts::reasons::reason_of;
use crate::texts::refusals::layout_word;
use inc_io::Name;
use inc_layout::{LayoutFault, StaticError};
use std::alloc::Global;

/// A command's status, and its whole text.
#[derive(Drop)]
pub struct CommandOutcome {
    pub status: Status,
    pub text: Vec<u8>,
}

/// The outcome of a name that is refused by this word.
pub fn refuse(alloc: Global, name: &Name, word: &[u8]) -> Result<CommandOutcome, Stop>
    ensures outcome { IfOk result (EndsAs (refused name.now word.now)) }
    ensures refused { IfOk result (λ outcome. outcome.status.0 ≡ 3) }
    ensures memory { IfErr result (λ stop. stop ≡ stop_out_of_memory) }
{
    Ok(CommandOutcome {
        status: Status::REFUSED,
        text: refused_line(alloc, name.as_slice(), word)?,
    })
}

/// The outcome of a stream that is refused by this word, at this place of it.
pub fn refuse_stream(alloc: Global, word: &[u8], place: u64) -> Result<CommandOutcome, Stop>
    ensures outcome { IfOk result (EndsAs (stream_refused word.now place)) }
    ensures refused { IfOk result (λ outcome. outcome.status.0 ≡ 2) }
    ensures memory { IfErr result (λ stop. stop ≡ stop_out_of_memory) }
{
    Ok(CommandOutcome {
        status: Status::STREAM_REFUSED,
        text: stream_line(alloc, word, place)?,
    })
}

/// The outcome of a name under which there is no backing file.
pub fn refuse_layout(alloc: Global, name: &Name, fault: LayoutFault) -> Result<CommandOutcome, Stop>
    requires { IsOwnFault fault }
    ensures outcome { IfOk result (EndsAs (refused_by name.now (layout_word fault))) }
    ensures refused { IfOk result (λ outcome. outcome.status.0 ≡ 3) }
    ensures fault { result ≡ Err stop_fault → fault ≡ layout_read_fault }
    ensures failed { fault ≡ layout_read_fault → result ≡ Err stop_fault }
{
    let word = layout_word(fault)?;
    refuse(alloc, name, word)
}

/// The outcome of a block that can't be shown.
pub fn refuse_block(alloc: Global, index: u32, error: StaticError) -> Result<CommandOutcome, Stop>
    ensures outcome { IfOk result (EndsAs (not_shown_by index (reason_of error))) }
    ensures not_shown { IfOk result (λ outcome. outcome.status.0 ≡ 4) }
    ensures fault { result ≡ Err stop_fault → error ≡ block_read_fault }
    ensures failed { error ≡ block_read_fault → result ≡ Err stop_fault }
{
    let reason = reason_of(alloc, error)?;
    Ok(CommandOutcome {
        status: Status::NOT_SHOWN,
        text: block_line(alloc, index, reason.as_slice())?,
    })
}
