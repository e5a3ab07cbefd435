ghost use Rattle.std.specs.Prelude.{◌≡◌, IfOk, IfErr, Ok, Err};
ghost use Rattle.inc_layout.specs.declared.reading.static_error.StaticError.TheVariants.{OutOfMemory as block_out_of_memory, ReadFault as block_read_fault};
ghost use Rattle.inc_words.specs.Refusals.{reason_of};
ghost use Rattle.inc_words.specs.declared.stop.Stop.TheVariants.{Fault as stop_fault};

use super::lines::{corrupt_reason, path_absent_reason};
use crate::stop::Stop;
use inc_layout::StaticError;
use std::alloc::Global;

/// Why a block can't be shown, in words. What failed outside of the file stops the command.
#[tactic(auto, unfolding(crate::specs::Refusals::reason_of))]
pub fn reason_of(alloc: Global, error: StaticError) -> Result<Vec<u8>, Stop>
    ensures reason { IfOk result (λ reason. reason_of error ≡ Ok reason.items) }
    ensures fault { result ≡ Err stop_fault → error ≡ block_read_fault }
    ensures failed { error ≡ block_read_fault → result ≡ Err stop_fault }
{
    match error {
        StaticError::OutOfRange => Ok(b"out-of-range".to_vec(alloc)?),
        StaticError::Damaged => Ok(b"damaged".to_vec(alloc)?),
        StaticError::Compressed => Ok(b"compressed".to_vec(alloc)?),
        StaticError::Absent => Ok(b"absent".to_vec(alloc)?),
        StaticError::PathAbsent { hash } => Ok(path_absent_reason(alloc, hash)?),
        StaticError::Corrupt { level, wanted, got } => {
            Ok(corrupt_reason(alloc, level, &wanted, &got)?)
        }
        StaticError::ReadFault => Err(Stop::Fault),
        StaticError::OutOfMemory => Err(Stop::OutOfMemory),
    }
}
