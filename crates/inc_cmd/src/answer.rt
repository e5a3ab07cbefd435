ghost use Rattle.std.specs.Prelude.{◌≡◌, ◌≢◌, ◌⊎◌, ◌<◌, [], false, IfSome, IfOk};
ghost use Rattle.inc_io.specs.Outside.{NoneOut};
ghost use Rattle.inc_cmd.specs.Commands.{plain};
ghost use Rattle.inc_words.specs.Endings.{AnswersAs};
ghost use Rattle.inc_cmd.specs.Runs.{ChangesOnly, HasCauseIn, IfLogs, IfTold, HasFullHistory, KeepsInput, KeepsShelf, KeepsUndone, LeavesFiles, Made, Settles, Shows, TakesInput, Vouches, WordsAreTold, given_to, reads_input, status_of};
ghost use Rattle.inc_words.specs.Parsing.{named};
ghost use Rattle.inc_words.specs.Words.{command_in};

use crate::commands::{fill_name, list_names, make_big, make_new, over_name};
use inc_disk::Shelf;
use inc_io::Source;
use inc_words::{Command, CommandOutcome, Status, Stop, WordsFault, parse_words, words_line};
use std::alloc::Global;

/// Does a command, up to the writing of its text.
pub fn answer<S: Shelf, I: Source>(
    alloc: Global,
    words: &[String],
    shelf: &mut S,
    input: &mut I,
) -> Result<CommandOutcome, Stop>
    requires { NoneOut (S.out shelf.old) }
    ensures answer { IfTold (command_in words.now) (S.contents (S.kept shelf.old)) (I.left input.old) (λ files given.
        IfOk result (λ outcome. outcome.status.0 ≢ 7 → AnswersAs (plain (command_in words.now) files given) outcome (S.contents (S.kept shelf.new)))) }
    ensures full { IfOk result (λ outcome. outcome.status.0 ≡ 7 → HasFullHistory (command_in words.now) (S.contents (S.kept shelf.old)) (I.left input.old) (S.contents (S.kept shelf.new))) }
    ensures silent { IfOk result (λ outcome. outcome.status.0 ≡ 7 → outcome.text.items ≡ []) }
    ensures shows { IfSome (S.contents (S.kept shelf.old)) (λ files. IfOk result (λ outcome. outcome.status.0 ≡ 0 →
        Shows (command_in words.now) files outcome.text.items)) }
    ensures vouched { IfOk result (λ outcome. outcome.status.0 ≡ 0 → Vouches (command_in words.now) outcome.text.items) }
    ensures statuses { IfOk result (λ outcome. (outcome.status.0 < 5) ⊎ (outcome.status.0 ≡ 7)) }
    ensures words { WordsAreTold (command_in words.now) (status_of result) }
    ensures cause { HasCauseIn (command_in words.now) (S.faults shelf.old) (S.faults shelf.new) (I.faults input.old) (I.faults input.new) result }
    ensures input_kept { reads_input (command_in words.now) ≡ false →
        KeepsInput (I.left input.old) (I.left input.new) (I.ended input.old) (I.ended input.new) (I.faults input.old) (I.faults input.new) }
    ensures took { TakesInput (command_in words.now) (I.left input.old) (I.left input.new) }
    ensures early { I.faults input.old < I.faults input.new → KeepsUndone (command_in words.now) (S.kept shelf.old) (S.kept shelf.new) }
    ensures kept { KeepsShelf (command_in words.now) (S.kept shelf.old) (S.kept shelf.new) }
    ensures unless_done { status_of result ≢ 0 → status_of result ≢ 5 → KeepsUndone (command_in words.now) (S.kept shelf.old) (S.kept shelf.new) }
    ensures others { IfLogs (S.log (S.kept shelf.old)) (S.log (S.kept shelf.new)) (ChangesOnly (command_in words.now)) }
    ensures moments { IfLogs (S.log (S.kept shelf.old)) (S.log (S.kept shelf.new)) (LeavesFiles (command_in words.now) (given_to (command_in words.now) (I.left input.old))) }
    ensures settled { status_of result ≢ 5 → status_of result ≢ 6 →
        IfLogs (S.log (S.kept shelf.old)) (S.log (S.kept shelf.new)) (Settles (command_in words.now) (given_to (command_in words.now) (I.left input.old))) }
    ensures made { status_of result ≡ 0 → IfSome (given_to (command_in words.now) (I.left input.old)) (λ given.
        IfSome (S.log (S.kept shelf.new)) (Made (command_in words.now) given)) }
    ensures back { NoneOut (S.out shelf.new) }
{
    match parse_words(alloc, words) {
        Ok(command) => act(alloc, command, shelf, input),
        Err(WordsFault::Bad { at }) => Ok(CommandOutcome {
            status: Status::BAD_WORDS,
            text: words_line(alloc, at)?,
        }),
        Err(WordsFault::OutOfMemory) => Err(Stop::OutOfMemory),
    }
}

/// Does a command that was read from its words.
fn act<S: Shelf, I: Source>(
    alloc: Global,
    command: Command,
    shelf: &mut S,
    input: &mut I,
) -> Result<CommandOutcome, Stop>
    requires { NoneOut (S.out shelf.old) }
    ensures answer { IfTold (named command) (S.contents (S.kept shelf.old)) (I.left input.old) (λ files given.
        IfOk result (λ outcome. outcome.status.0 ≢ 7 → AnswersAs (plain (named command) files given) outcome (S.contents (S.kept shelf.new)))) }
    ensures full { IfOk result (λ outcome. outcome.status.0 ≡ 7 → HasFullHistory (named command) (S.contents (S.kept shelf.old)) (I.left input.old) (S.contents (S.kept shelf.new))) }
    ensures silent { IfOk result (λ outcome. outcome.status.0 ≡ 7 → outcome.text.items ≡ []) }
    ensures shows { IfSome (S.contents (S.kept shelf.old)) (λ files. IfOk result (λ outcome. outcome.status.0 ≡ 0 →
        Shows (named command) files outcome.text.items)) }
    ensures vouched { IfOk result (λ outcome. outcome.status.0 ≡ 0 → Vouches (named command) outcome.text.items) }
    ensures statuses { IfOk result (λ outcome. (outcome.status.0 < 5) ⊎ (outcome.status.0 ≡ 7)) }
    ensures words { WordsAreTold (named command) (status_of result) }
    ensures cause { HasCauseIn (named command) (S.faults shelf.old) (S.faults shelf.new) (I.faults input.old) (I.faults input.new) result }
    ensures input_kept { reads_input (named command) ≡ false →
        KeepsInput (I.left input.old) (I.left input.new) (I.ended input.old) (I.ended input.new) (I.faults input.old) (I.faults input.new) }
    ensures took { TakesInput (named command) (I.left input.old) (I.left input.new) }
    ensures early { I.faults input.old < I.faults input.new → KeepsUndone (named command) (S.kept shelf.old) (S.kept shelf.new) }
    ensures kept { KeepsShelf (named command) (S.kept shelf.old) (S.kept shelf.new) }
    ensures unless_done { status_of result ≢ 0 → status_of result ≢ 5 → KeepsUndone (named command) (S.kept shelf.old) (S.kept shelf.new) }
    ensures others { IfLogs (S.log (S.kept shelf.old)) (S.log (S.kept shelf.new)) (ChangesOnly (named command)) }
    ensures moments { IfLogs (S.log (S.kept shelf.old)) (S.log (S.kept shelf.new)) (LeavesFiles (named command) (given_to (named command) (I.left input.old))) }
    ensures settled { status_of result ≢ 5 → status_of result ≢ 6 →
        IfLogs (S.log (S.kept shelf.old)) (S.log (S.kept shelf.new)) (Settles (named command) (given_to (named command) (I.left input.old))) }
    ensures made { status_of result ≡ 0 → IfSome (given_to (named command) (I.left input.old)) (λ given.
        IfSome (S.log (S.kept shelf.new)) (Made (named command) given)) }
    ensures back { NoneOut (S.out shelf.new) }
{
    match command {
        Command::Make {
            name,
            size,
            id,
            unsigned,
        } => make_new(alloc, &name, size, id, unsigned, shelf, input),
        Command::Fill { name } => fill_name(alloc, &name, shelf, input),
        Command::Big { name, number, size } => make_big(alloc, &name, number, size, shelf),
        Command::Over { name, command } => over_name(alloc, &name, command, shelf),
        Command::Listing => list_names(alloc, shelf),
    }
}
