ghost use Rattle.std.specs.Prelude.{◌≡◌, ◌≢◌, ◌⊎◌, ◌<◌, ◌≤◌, [], false, IfSome};
ghost use Rattle.inc_io.specs.Causes.{Rose};
ghost use Rattle.inc_io.specs.Writing.{Appends, AppendsFront};
ghost use Rattle.inc_io.specs.Outside.{NoneOut};
ghost use Rattle.inc_cmd.specs.Runs.{ChangesOnly, EndsAsPlain, HasFailed, IfLogs, HasFullHistory, IsQuiet, IsTold, KeepsInput, KeepsShelf, KeepsUndone, LeavesFiles, Made, Prints, PrintsFront, Settles, Shows, TakesInput, Vouches, WordsAreTold, given_to, reads_input};
ghost use Rattle.inc_words.specs.Words.{command_in};

use crate::answer::answer;
use inc_disk::Shelf;
use inc_io::{Clock, Sink, Source, write_all};
use inc_words::{CommandOutcome, Status, Stop};
use std::alloc::Global;

/// Does the command that the words name over a shelf, with what the input gives, writes its text and gives the exit status. Main makes this one call.
pub fn run_plain<S: Shelf, I: Source, O: Sink, C: Clock>(
    alloc: Global,
    words: &[String],
    shelf: &mut S,
    input: &mut I,
    out: &mut O,
    clock: &C,
) -> Status
    requires { NoneOut (S.out shelf.old) }

    // Where the run ends neither by a fault, nor for want of memory or of room in a history, status, text and the files that then stand are the
    // definition's.
    ensures answer { IsQuiet (O.faults out.old) (O.faults out.new) → result.0 ≢ 5 → result.0 ≢ 6 → result.0 ≢ 7 →
        EndsAsPlain (command_in words.now) (S.contents (S.kept shelf.old)) (I.left input.old) result.0 (O.written out.old) (O.written out.new) (S.contents (S.kept shelf.new)) }
    // Where a history is full nothing is written, and the definition's file with at least so many pieces of the stream stands.
    ensures full { result.0 ≡ 7 → HasFullHistory (command_in words.now) (S.contents (S.kept shelf.old)) (I.left input.old) (S.contents (S.kept shelf.new)) }
    ensures silent { result.0 ≡ 7 → Appends (O.written out.old) (O.written out.new) [] }
    // In any case what was written is a front of the definition's text.
    ensures front { PrintsFront (command_in words.now) (S.contents (S.kept shelf.old)) (I.left input.old) (O.written out.old) (O.written out.new) }
    // At status 0 what is shown of a block is the file's, of a mapped name its original's, and proved, or marked as unproved; the blocks that a
    // checked name shows are all proved; and a listing says of each name what stands there.
    ensures proved { result.0 ≡ 0 → IfSome (S.contents (S.kept shelf.old)) (λ files. Prints (O.written out.old) (O.written out.new) (Shows (command_in words.now) files)) }
    // Whatever the shelf tells: a path leads from what is shown of a block to a root.
    ensures vouched { result.0 ≡ 0 → Prints (O.written out.old) (O.written out.new) (Vouches (command_in words.now)) }

    // Each status but 6 has its cause, and a count of faults that grew is told.
    ensures status { result.0 ≤ 7 }
    ensures words { WordsAreTold (command_in words.now) result.0 }
    ensures fault { result.0 ≡ 5 → Rose (O.faults out.old) (O.faults out.new)
        ⊎ HasFailed (command_in words.now) (S.faults shelf.old) (S.faults shelf.new) (I.faults input.old) (I.faults input.new) }
    ensures shelf_told { IsTold (S.faults shelf.old) (S.faults shelf.new) result.0 }
    ensures input_told { IsTold (I.faults input.old) (I.faults input.new) result.0 }
    ensures out_told { IsTold (O.faults out.old) (O.faults out.new) result.0 }

    // The input is taken by a make of a signed file and a fill alone; by a make no more of it than a blob may be, and before anything is done
    // on the shelf.
    ensures input_kept { reads_input (command_in words.now) ≡ false →
        KeepsInput (I.left input.old) (I.left input.new) (I.ended input.old) (I.ended input.new) (I.faults input.old) (I.faults input.new) }
    ensures took { TakesInput (command_in words.now) (I.left input.old) (I.left input.new) }
    ensures early { I.faults input.old < I.faults input.new → KeepsUndone (command_in words.now) (S.kept shelf.old) (S.kept shelf.new) }

    // A command that only reads leaves the shelf as it was, and so does a make that is refused or finds no memory.
    ensures kept { KeepsShelf (command_in words.now) (S.kept shelf.old) (S.kept shelf.new) }
    ensures unless_done { result.0 ≢ 0 → result.0 ≢ 5 → KeepsUndone (command_in words.now) (S.kept shelf.old) (S.kept shelf.new) }
    // A make changes no other name, and none that is there; a fill changes no other name, and adds none.
    ensures others { IfLogs (S.log (S.kept shelf.old)) (S.log (S.kept shelf.new)) (ChangesOnly (command_in words.now)) }
    // A crash at any moment leaves of a make's file none, or bytes that are refused, or all of it; of a fill's file what it might have left at
    // the start, or a file that keeps a state which the fill's history has reached; of a big file the one and then the other.
    ensures moments { IfLogs (S.log (S.kept shelf.old)) (S.log (S.kept shelf.new)) (LeavesFiles (command_in words.now) (given_to (command_in words.now) (I.left input.old))) }
    // After a fill that wasn't stopped from outside, also a big file's, a crash leaves each block that is open.
    ensures settled { result.0 ≢ 5 → result.0 ≢ 6 → IfLogs (S.log (S.kept shelf.old)) (S.log (S.kept shelf.new)) (Settles (command_in words.now) (given_to (command_in words.now) (I.left input.old))) }
    // What is told as made stands whole, and no crash changes it.
    ensures made { result.0 ≡ 0 → IfSome (given_to (command_in words.now) (I.left input.old)) (λ given. IfSome (S.log (S.kept shelf.new)) (Made (command_in words.now) given)) }
    ensures back { NoneOut (S.out shelf.new) }
{
    match answer(alloc, words, shelf, input) {
        Ok(outcome) => finish(outcome, out),
        Err(Stop::Fault) => Status::FAULT,
        Err(Stop::OutOfMemory) => Status::OUT_OF_MEMORY,
    }
}

/// Writes an outcome's text. The status of bad words stands before that of a fault.
fn finish<O: Sink>(outcome: CommandOutcome, out: &mut O) -> Status
    ensures status { IsQuiet (O.faults out.old) (O.faults out.new) → result.0 ≡ outcome.status.0 }
    ensures text { IsQuiet (O.faults out.old) (O.faults out.new) → Appends (O.written out.old) (O.written out.new) outcome.text.items }
    ensures front { AppendsFront (O.written out.old) (O.written out.new) outcome.text.items }
    ensures done { result.0 ≡ 0 → outcome.status.0 ≡ 0 }
    ensures same { result.0 ≢ 5 → result.0 ≡ outcome.status.0 }
    ensures shown { result.0 ≢ 5 → result.0 ≢ 1 → Appends (O.written out.old) (O.written out.new) outcome.text.items }
    ensures fault { result.0 ≡ 5 → outcome.status.0 ≢ 5 → Rose (O.faults out.old) (O.faults out.new) }
    ensures told { IsTold (O.faults out.old) (O.faults out.new) result.0 }
    ensures bad_words { outcome.status.0 ≡ 1 → result.0 ≡ 1 }
    ensures good_words { result.0 ≡ 1 → outcome.status.0 ≡ 1 }
{
    match write_all(out, outcome.text.as_slice()) {
        Ok(()) => outcome.status,
        Err(_) => outcome.status.or_fault(),
    }
}
