ghost use Rattle.std.specs.Prelude.{◌≡◌, ◌≤◌, length, take, IfSome, IfOk};
ghost use Rattle.inc_io.specs.Causes.{HasCause, HasCauseAt};
ghost use Rattle.inc_cmd.specs.Commands.Make.{blob_of, most_taken};
ghost use Rattle.inc_cmd.specs.Runs.{TakesFront};
ghost use Rattle.inc_words.specs.declared.stop.Stop.TheVariants.{Fault as stop_fault};

use crate::OutOfMemory;
use inc_io::{Failed, Source};
use inc_words::Stop;
use std::alloc::Global;

/// One byte more than a signature blob may have, so that a longer one is refused.
const MOST: usize = 8097;

/// Reads the front of the input, as much of it as may be a signature blob.
pub fn read_blob<I: Source>(alloc: Global, input: &mut I) -> Result<Vec<u8>, Stop>
    ensures blob { IfSome (I.left input.old) (λ given. IfOk result (λ blob. blob.items ≡ blob_of given)) }
    ensures took { TakesFront most_taken (I.left input.old) (I.left input.new) }
    ensures cause { HasCauseAt stop_fault (I.faults input.old) (I.faults input.new) result }
{
    let mut blob = room(alloc)?;
    let count = read_front(input, blob.as_mut_slice())?;
    blob.truncate(count);
    Ok(blob)
}

fn room(alloc: Global) -> Result<Vec<u8>, OutOfMemory>
    ensures length { IfOk result (λ room. length room.items ≡ most_taken) }
{
    let mut room = Vec::with_capacity(alloc, MOST)?;
    room.resize(MOST, 0)?;
    Ok(room)
}

/// Fills the room with the next bytes, as far as there are any, and says how many these are.
fn read_front<I: Source>(input: &mut I, room: &mut [u8]) -> Result<usize, Failed>
    ensures within { IfOk result (λ count. count ≤ length room.old) }
    ensures front { IfSome (I.left input.old) (λ given. IfOk result (λ count. take count room.new ≡ take (length room.old) given)) }
    ensures took { TakesFront (length room.old) (I.left input.old) (I.left input.new) }
    ensures cause { HasCause (I.faults input.old) (I.faults input.new) result }
{
    let mut end = 0;
    while end < room.len() {
        let count = input.read(&mut room[end..])?;
        if count == 0 {
            return Ok(end);
        }
        end += count;
    }
    Ok(end)
}
