// What the words ask for, a file a command; and the frame of those that only read: the name is judged, the file behind it is lent, read and
// given back.
ghost use Rattle.std.specs.Prelude.{◌≡◌, ◌≢◌, ◌<◌, None, Some, IfSome, IfOk, IsSomeAnd};
ghost use Rattle.std.specs.FinMap.{get};
ghost use Rattle.inc_io.specs.Causes.{HasCauseAt};
ghost use Rattle.inc_io.specs.Outside.{NoneOut};
ghost use Rattle.inc_volume.specs.Verdicts.{HasMapping, IsByFile, IsVerdict, verdict_of};
ghost use Rattle.inc_cmd.specs.Commands.{ShowsOf, VouchesOf, file_ending, judged_ending, named_ending, stored_ending};
ghost use Rattle.inc_cmd.specs.Commands.Names.{HoldsOfName};
ghost use Rattle.inc_cmd.specs.Runs.{Vouches};
ghost use Rattle.inc_words.specs.Command.{Over as over_command};
ghost use Rattle.inc_words.specs.Endings.{EndsAs};
ghost use Rattle.inc_words.specs.declared.stop.Stop.TheVariants.{Fault as stop_fault};

mod big;
mod check;
mod fill;
mod inspect;
mod listing;
mod make;
mod mapped;
mod ranges;
mod read;

pub use big::make_big;
use check::check_file;
pub use fill::fill_name;
use inc_header::{Header, HeaderKind};
use inc_io::{Backing, Name, ReadShelf};
use inc_volume::{Verdict, judge};
use inc_words::{
    CommandOutcome, FileCommand, Stop, missing, no_original, past_original, refuse, refuse_layout,
    same_id,
};
use inspect::inspect_file;
pub use listing::list_names;
pub use make::make_new;
use mapped::over_original;
use ranges::list_ranges;
use read::read_block;
use std::alloc::Global;

/// Does a command over one name, by the name's verdict.
pub fn over_name<S: ReadShelf>(
    alloc: Global,
    name: &Name,
    command: FileCommand,
    shelf: &mut S,
) -> Result<CommandOutcome, Stop>
    requires { NoneOut (S.out shelf.old) }
    ensures answer { IfSome (S.contents (S.kept shelf.old)) (λ files. IfOk result (EndsAs (named_ending command name.now files))) }
    ensures shows { IfSome (S.contents (S.kept shelf.old)) (λ files. IfOk result (λ outcome. outcome.status.0 ≡ 0 →
        HoldsOfName files name.now (ShowsOf command outcome.text.items))) }
    ensures vouched { IfOk result (λ outcome. outcome.status.0 ≡ 0 → Vouches (over_command name.now command) outcome.text.items) }
    ensures words { IfOk result (λ outcome. outcome.status.0 ≢ 1) }
    ensures statuses { IfOk result (λ outcome. outcome.status.0 < 5) }
    ensures cause { HasCauseAt stop_fault (S.faults shelf.old) (S.faults shelf.new) result }
    ensures kept { S.kept shelf.new ≡ S.kept shelf.old }
    ensures back { NoneOut (S.out shelf.new) }
{
    match judge(alloc, shelf, name)? {
        Some(verdict) => over_judged(alloc, name, command, shelf, verdict),
        None => refuse(alloc, name, missing()),
    }
}

/// Does a command over a name with this verdict.
fn over_judged<S: ReadShelf>(
    alloc: Global,
    name: &Name,
    command: FileCommand,
    shelf: &mut S,
    verdict: Verdict,
) -> Result<CommandOutcome, Stop>
    requires none_out { NoneOut (S.out shelf.old) }
    requires judged { IfSome (S.contents (S.kept shelf.old)) (λ files. Some verdict ≡ verdict_of files name.now) }
    requires meaning { IfSome (S.contents (S.kept shelf.old)) (λ files. IsVerdict files name.now verdict) }
    requires own { IsByFile verdict }
    requires mapping { HasMapping verdict }
    ensures answer { IfSome (S.contents (S.kept shelf.old)) (λ files. IfOk result (EndsAs (judged_ending command name.now files (Some verdict)))) }
    ensures shows { IfSome (S.contents (S.kept shelf.old)) (λ files. IfOk result (λ outcome. outcome.status.0 ≡ 0 →
        HoldsOfName files name.now (ShowsOf command outcome.text.items))) }
    ensures vouched { IfOk result (λ outcome. outcome.status.0 ≡ 0 → Vouches (over_command name.now command) outcome.text.items) }
    ensures words { IfOk result (λ outcome. outcome.status.0 ≢ 1) }
    ensures statuses { IfOk result (λ outcome. outcome.status.0 < 5) }
    ensures cause { HasCauseAt stop_fault (S.faults shelf.old) (S.faults shelf.new) result }
    ensures kept { S.kept shelf.new ≡ S.kept shelf.old }
    ensures back { NoneOut (S.out shelf.new) }
{
    match verdict {
        Verdict::Plain { .. } => over_own(alloc, name, command, shelf),
        Verdict::Mapped {
            original,
            offset,
            size,
        } => {
            let header = Header {
                kind: HeaderKind::Mapped { offset },
                size,
                id: original,
            };
            over_original(alloc, name, command, shelf, &header)
        }
        Verdict::SameId { .. } => refuse(alloc, name, same_id()),
        Verdict::NoOriginal { .. } => refuse(alloc, name, no_original()),
        Verdict::PastOriginal { .. } => refuse(alloc, name, past_original()),
        Verdict::Refused(fault) => refuse_layout(alloc, name, fault),
    }
}

/// Does a command over the file under the name.
fn over_own<S: ReadShelf>(
    alloc: Global,
    name: &Name,
    command: FileCommand,
    shelf: &mut S,
) -> Result<CommandOutcome, Stop>
    requires { NoneOut (S.out shelf.old) }
    ensures answer { IfSome (S.contents (S.kept shelf.old)) (λ files. IfOk result (EndsAs (stored_ending command name.now (get files name.now)))) }
    ensures shows { IfSome (S.contents (S.kept shelf.old)) (λ files. IfOk result (λ outcome. outcome.status.0 ≡ 0 →
        IsSomeAnd (get files name.now) (λ bytes. ShowsOf command outcome.text.items None bytes))) }
    ensures vouched { IfOk result (λ outcome. outcome.status.0 ≡ 0 → VouchesOf command None outcome.text.items) }
    ensures words { IfOk result (λ outcome. outcome.status.0 ≢ 1) }
    ensures statuses { IfOk result (λ outcome. outcome.status.0 < 5) }
    ensures cause { HasCauseAt stop_fault (S.faults shelf.old) (S.faults shelf.new) result }
    ensures kept { S.kept shelf.new ≡ S.kept shelf.old }
    ensures back { NoneOut (S.out shelf.new) }
{
    let Some(mut file) = shelf.open_read(name)? else {
        return refuse(alloc, name, missing());
    };
    let outcome = over_file(alloc, name, &mut file, command);
    shelf.close_read(name, file);
    outcome
}

fn over_file<B: Backing>(
    alloc: Global,
    name: &Name,
    file: &mut B,
    command: FileCommand,
) -> Result<CommandOutcome, Stop>
    ensures answer { IfSome (B.reads (B.kept file.old)) (λ bytes. IfOk result (EndsAs (file_ending command name.now bytes))) }
    ensures shows { IfSome (B.reads (B.kept file.old)) (λ bytes. IfOk result (λ outcome. outcome.status.0 ≡ 0 → ShowsOf command outcome.text.items None bytes)) }
    ensures vouched { IfOk result (λ outcome. outcome.status.0 ≡ 0 → VouchesOf command None outcome.text.items) }
    ensures words { IfOk result (λ outcome. outcome.status.0 ≢ 1) }
    ensures statuses { IfOk result (λ outcome. outcome.status.0 < 5) }
    ensures kept { B.kept file.new ≡ B.kept file.old }
    ensures cause { HasCauseAt stop_fault (B.faults file.old) (B.faults file.new) result }
{
    match command {
        FileCommand::Read {
            index,
            root,
            unproved,
        } => read_block(alloc, name, file, index, root, unproved),
        FileCommand::Check { root } => check_file(alloc, name, file, root),
        FileCommand::Inspect => inspect_file(alloc, name, file),
        FileCommand::Ranges { start, end, room } => {
            list_ranges(alloc, name, file, start, end, room)
        }
    }
}
