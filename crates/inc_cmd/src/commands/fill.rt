// A fill of a file from the stream in the input.
ghost use Rattle.std.specs.Prelude.{◌≡◌, ◌≢◌, ◌⊎◌, ℕ, ◌^◌, ◌<◌, ◌≤◌, List, [], ◌∷◌, false, Option, None, Some, Err, IfSome, IfOk, IfErr};
ghost use Rattle.std.specs.FinMap.{get};
ghost use Rattle.inc_io.specs.Causes.{HasCauseAt};
ghost use Rattle.inc_io.specs.Outside.{NoneOut};
ghost use Rattle.inc_disk.specs.Disk.{DiskState, Now, settled};
ghost use Rattle.inc_layout.specs.opening.Opening.{IsSoundOpened};
ghost use Rattle.inc_layout.specs.state.Reopening.{IsMountedOn};
ghost use Rattle.inc_recover.specs.Mounting.{FaultCause, GivesMountFault, IsOwnMountFault, layout_of};
ghost use Rattle.inc_cell.specs.seen.Opens.{cell_on};
ghost use Rattle.inc_cell.specs.seen.Seen.{state_now};
ghost use Rattle.inc_filling.specs.Fillable.{IsFillable};
ghost use Rattle.inc_cmd.specs.Commands.Fill.{EndsFull, fault_place, fill_answer, fill_by, fill_stored, keeps_own_id, piece_word};
ghost use Rattle.inc_cmd.specs.Commands.FillMoments.{EndsSettled, ExtendsOnly, LeavesFilled, stream_pieces};
ghost use Rattle.inc_cmd.specs.FilledDisks.{FillsCell, FillsDisk, HadNotFailed, IsRefusedFile, TellsFill, filled_ending};
ghost use Rattle.inc_cmd.specs.Runs.{HasEitherCause, IfLogs, TakesSome, status_of};
ghost use Rattle.inc_io.specs.Contents.{Contents};
ghost use Rattle.inc_volume.specs.Verdicts.{IsByFile, verdict_of};
ghost use Rattle.inc_words.specs.Endings.{AnswersAs, EndsAs};
ghost use Rattle.inc_words.specs.declared.stop.Stop.TheVariants.{Fault as stop_fault, OutOfMemory as stop_out_of_memory};

use inc_cell::FileCell;
use inc_disk::{Disk, Shelf};
use inc_filling::{FillEnd, FillFailure, FillStop, Filled, PieceRefusal, fill_from};
use inc_frame::FrameFault;
use inc_io::{Name, Source};
use inc_layout::{LayoutFault, Mounted, open_shape};
use inc_model::Window;
use inc_recover::{MountFault, mount_file};
use inc_script::{fill_word, frame_word};
use inc_volume::{Verdict, judge};
use inc_words::{
    CommandOutcome, Status, Stop, fill_line, missing, no_original, past_original, refuse,
    refuse_layout, refuse_stream, same_id, too_long, unknown_file,
};
use std::alloc::Global;

/// The command is the only one that fills the file.
const WINDOW: Window = Window { who: 0, count: 0 };

/// Fills the pieces of the stream in the input into the file of this name. The name is judged before anything of the input is read.
pub fn fill_name<S: Shelf, I: Source>(
    alloc: Global,
    name: &Name,
    shelf: &mut S,
    input: &mut I,
) -> Result<CommandOutcome, Stop>
    requires { NoneOut (S.out shelf.old) }
    ensures answer { IfSome (S.contents (S.kept shelf.old)) (λ files. IfSome (I.left input.old) (λ given. IfOk result (λ outcome.
        outcome.status.0 ≢ 7 → AnswersAs (fill_answer name.now files given) outcome (S.contents (S.kept shelf.new))))) }
    ensures full { IfSome (S.contents (S.kept shelf.old)) (λ files. IfSome (I.left input.old) (λ given. IfOk result (λ outcome.
        outcome.status.0 ≡ 7 → EndsFull name.now files given (S.contents (S.kept shelf.new))))) }
    ensures others { IfLogs (S.log (S.kept shelf.old)) (S.log (S.kept shelf.new)) (ExtendsOnly name.now) }
    ensures moments { IfLogs (S.log (S.kept shelf.old)) (S.log (S.kept shelf.new)) (LeavesFilled name.now (stream_pieces (I.left input.old))) }
    ensures settled { status_of result ≢ 5 → status_of result ≢ 6 → IfLogs (S.log (S.kept shelf.old)) (S.log (S.kept shelf.new)) (EndsSettled name.now (stream_pieces (I.left input.old))) }
    ensures took { TakesSome (I.left input.old) (I.left input.new) }
    ensures silent { IfOk result (λ outcome. outcome.status.0 ≡ 7 → outcome.text.items ≡ []) }
    ensures words { status_of result ≢ 1 }
    ensures statuses { IfOk result (λ outcome. (outcome.status.0 < 5) ⊎ (outcome.status.0 ≡ 7)) }
    ensures cause { HasEitherCause (S.faults shelf.old) (S.faults shelf.new) (I.faults input.old) (I.faults input.new) result }
    ensures back { NoneOut (S.out shelf.new) }
{
    match judge(alloc, shelf, name)? {
        Some(verdict) => fill_judged(alloc, name, verdict, shelf, input),
        None => refuse(alloc, name, missing()),
    }
}

/// Fills the file of a name with this verdict, where the file keeps its id. Any other name is refused.
fn fill_judged<S: Shelf, I: Source>(
    alloc: Global,
    name: &Name,
    verdict: Verdict,
    shelf: &mut S,
    input: &mut I,
) -> Result<CommandOutcome, Stop>
    requires none_out { NoneOut (S.out shelf.old) }
    requires judged { IfSome (S.contents (S.kept shelf.old)) (λ files. Some verdict ≡ verdict_of files name.now) }
    requires own { IsByFile verdict }
    ensures answer { IfSome (S.contents (S.kept shelf.old)) (λ files. IfSome (I.left input.old) (λ given. IfOk result (λ outcome.
        outcome.status.0 ≢ 7 → AnswersAs (fill_by name.now files given (Some verdict)) outcome (S.contents (S.kept shelf.new))))) }
    ensures full { IfSome (S.contents (S.kept shelf.old)) (λ files. IfSome (I.left input.old) (λ given. IfOk result (λ outcome.
        outcome.status.0 ≡ 7 → EndsFull name.now files given (S.contents (S.kept shelf.new))))) }
    ensures others { IfLogs (S.log (S.kept shelf.old)) (S.log (S.kept shelf.new)) (ExtendsOnly name.now) }
    ensures moments { IfLogs (S.log (S.kept shelf.old)) (S.log (S.kept shelf.new)) (LeavesFilled name.now (stream_pieces (I.left input.old))) }
    ensures settled { status_of result ≢ 5 → status_of result ≢ 6 → IfLogs (S.log (S.kept shelf.old)) (S.log (S.kept shelf.new)) (EndsSettled name.now (stream_pieces (I.left input.old))) }
    ensures took { TakesSome (I.left input.old) (I.left input.new) }
    ensures silent { IfOk result (λ outcome. outcome.status.0 ≡ 7 → outcome.text.items ≡ []) }
    ensures words { status_of result ≢ 1 }
    ensures statuses { IfOk result (λ outcome. (outcome.status.0 < 5) ⊎ (outcome.status.0 ≡ 7)) }
    ensures cause { HasEitherCause (S.faults shelf.old) (S.faults shelf.new) (I.faults input.old) (I.faults input.new) result }
    ensures back { NoneOut (S.out shelf.new) }
{
    if keeps_own_id(&verdict) {
        fill_own(alloc, name, shelf, input)
    } else {
        refuse_verdict(alloc, name, verdict)
    }
}

fn keeps_own_id(verdict: &Verdict) -> bool
    ensures value { result ≡ keeps_own_id (Some verdict.now) }
{
    matches!(verdict, Verdict::Plain { .. })
}

/// The outcome of a name that isn't filled.
#[tactic(auto, using(crate::proofs::filling::Verdicts::stays_as))]
fn refuse_verdict(alloc: Global, name: &Name, verdict: Verdict) -> Result<CommandOutcome, Stop>
    requires own { IsByFile verdict }
    requires other { keeps_own_id (Some verdict) ≡ false }
    ensures answer { (files : Contents) (given : List ℕ) (after : Option Contents) → after ≡ Some files
        → IfOk result (λ outcome. AnswersAs (fill_by name.now files given (Some verdict)) outcome after) }
    ensures refused { IfOk result (λ outcome. outcome.status.0 ≡ 3) }
    ensures memory { IfErr result (λ stop. stop ≡ stop_out_of_memory) }
{
    match verdict {
        Verdict::Mapped { .. } => refuse_layout(alloc, name, LayoutFault::Mapped),
        Verdict::SameId { .. } => refuse(alloc, name, same_id()),
        Verdict::NoOriginal { .. } => refuse(alloc, name, no_original()),
        Verdict::PastOriginal { .. } => refuse(alloc, name, past_original()),
        Verdict::Refused(fault) => refuse_layout(alloc, name, fault),
        Verdict::Plain { .. } => unreachable!(),
    }
}

/// Fills the pieces of the stream into the file under the name.
fn fill_own<S: Shelf, I: Source>(
    alloc: Global,
    name: &Name,
    shelf: &mut S,
    input: &mut I,
) -> Result<CommandOutcome, Stop>
    requires { NoneOut (S.out shelf.old) }
    ensures answer { IfSome (S.contents (S.kept shelf.old)) (λ files. IfSome (I.left input.old) (λ given. IfOk result (λ outcome.
        outcome.status.0 ≢ 7 → AnswersAs (fill_stored name.now files given (get files name.now)) outcome (S.contents (S.kept shelf.new))))) }
    ensures full { IfSome (S.contents (S.kept shelf.old)) (λ files. IfSome (I.left input.old) (λ given. IfOk result (λ outcome.
        outcome.status.0 ≡ 7 → EndsFull name.now files given (S.contents (S.kept shelf.new))))) }
    ensures others { IfLogs (S.log (S.kept shelf.old)) (S.log (S.kept shelf.new)) (ExtendsOnly name.now) }
    ensures moments { IfLogs (S.log (S.kept shelf.old)) (S.log (S.kept shelf.new)) (LeavesFilled name.now (stream_pieces (I.left input.old))) }
    ensures settled { status_of result ≢ 5 → status_of result ≢ 6 → IfLogs (S.log (S.kept shelf.old)) (S.log (S.kept shelf.new)) (EndsSettled name.now (stream_pieces (I.left input.old))) }
    ensures took { TakesSome (I.left input.old) (I.left input.new) }
    ensures silent { IfOk result (λ outcome. outcome.status.0 ≡ 7 → outcome.text.items ≡ []) }
    ensures words { status_of result ≢ 1 }
    ensures statuses { IfOk result (λ outcome. (outcome.status.0 < 5) ⊎ (outcome.status.0 ≡ 7)) }
    ensures cause { HasEitherCause (S.faults shelf.old) (S.faults shelf.new) (I.faults input.old) (I.faults input.new) result }
    ensures back { NoneOut (S.out shelf.new) }
{
    let Some(disk) = shelf.open_disk(name)? else {
        return refuse(alloc, name, missing());
    };
    let (end, disk) = fill_disk(alloc, name, disk, input);
    shelf.close_disk(name, disk);
    end
}

/// Fills the file of a disk. The disk comes back in any case.
fn fill_disk<D: Disk, I: Source>(
    alloc: Global,
    name: &Name,
    disk: D,
    input: &mut I,
) -> (Result<CommandOutcome, Stop>, D)
    requires { D.faults disk ≡ 0 }
    ensures fills { (first : DiskState) → D.states (D.kept disk) ≡ first ∷ [] → FillsDisk name.now first (D.states (D.kept result.1)) (I.left input.old) result.0 }
    ensures took { TakesSome (I.left input.old) (I.left input.new) }
    ensures silent { IfOk result.0 (λ outcome. outcome.status.0 ≡ 7 → outcome.text.items ≡ []) }
    ensures words { status_of result.0 ≢ 1 }
    ensures statuses { IfOk result.0 (λ outcome. (outcome.status.0 < 5) ⊎ (outcome.status.0 ≡ 7)) }
    ensures cause { HasEitherCause (D.faults disk) (D.faults result.1) (I.faults input.old) (I.faults input.new) result.0 }
{
    match mount_file(alloc, disk) {
        Ok(mounted) => fill_mounted(alloc, name, mounted, input),
        Err((fault, disk)) => {
            let mut disk = disk;
            let end = refuse_mount(alloc, name, fault, &mut disk);
            (end, disk)
        }
    }
}

/// The outcome of a file that isn't mounted. A mount refuses by its length first; of a file that is too long its layout is judged first here.
fn refuse_mount<D: Disk>(
    alloc: Global,
    name: &Name,
    fault: MountFault,
    disk: &mut D,
) -> Result<CommandOutcome, Stop>
    requires { IsOwnMountFault fault }
    ensures refused { IfSome (D.reads (D.kept disk.old)) (λ bytes. GivesMountFault fault (layout_of bytes) → IfOk result (IsRefusedFile name.now bytes)) }
    ensures only { IfOk result (λ outcome. outcome.status.0 ≡ 3) }
    ensures failed { fault ≡ MountFault.DiskFault → result ≡ Err stop_fault }
    ensures kept { D.kept disk.new ≡ D.kept disk.old }
    ensures cause { (before : ℕ) → before ≤ D.faults disk.old → FaultCause before (D.faults disk.old) fault → HasCauseAt stop_fault before (D.faults disk.new) result }
{
    match fault {
        MountFault::Layout(fault) => {
            if fault == LayoutFault::TooLong {
                refuse_long(alloc, name, disk)
            } else {
                refuse_layout(alloc, name, fault)
            }
        }
        MountFault::DiskFault => Err(Stop::Fault),
        MountFault::OutOfMemory => Err(Stop::OutOfMemory),
    }
}

/// The outcome of a file of more bytes than a fill takes.
fn refuse_long<D: Disk>(alloc: Global, name: &Name, disk: &mut D) -> Result<CommandOutcome, Stop>
    ensures refused { IfSome (D.reads (D.kept disk.old)) (λ bytes. layout_of bytes ≡ Err (LayoutFault.TooLong) → IfOk result (IsRefusedFile name.now bytes)) }
    ensures only { IfOk result (λ outcome. outcome.status.0 ≡ 3) }
    ensures kept { D.kept disk.new ≡ D.kept disk.old }
    ensures cause { HasCauseAt stop_fault (D.faults disk.old) (D.faults disk.new) result }
{
    match open_shape(alloc, disk) {
        Ok(_) => refuse(alloc, name, too_long()),
        Err(fault) => refuse_layout(alloc, name, fault),
    }
}

/// Fills a mounted file. Without memory for its cell nothing is done.
fn fill_mounted<D: Disk, I: Source>(
    alloc: Global,
    name: &Name,
    mounted: Mounted<D>,
    input: &mut I,
) -> (Result<CommandOutcome, Stop>, D)
    requires sound { IsSoundOpened mounted.opened }
    requires short { mounted.opened.len ≤ 2 ^ 46 }
    requires mounted { Now (D.states (D.kept mounted.disk)) (IsMountedOn settled mounted.opened) }
    requires quiet { D.faults mounted.disk ≡ 0 }
    ensures fills { FillsCell name.now (cell_on (D.states (D.kept mounted.disk)) 0 mounted.opened 0) (D.states (D.kept result.1)) (I.left input.old) result.0 }
    ensures took { TakesSome (I.left input.old) (I.left input.new) }
    ensures silent { IfOk result.0 (λ outcome. outcome.status.0 ≡ 7 → outcome.text.items ≡ []) }
    ensures words { status_of result.0 ≢ 1 }
    ensures statuses { IfOk result.0 (λ outcome. (outcome.status.0 < 5) ⊎ (outcome.status.0 ≡ 7)) }
    ensures cause { HasEitherCause (D.faults mounted.disk) (D.faults result.1) (I.faults input.old) (I.faults input.new) result.0 }
{
    match FileCell::new(alloc, mounted, 0) {
        Ok(cell) => fill_cell(alloc, name, cell, input),
        Err((_, mounted)) => {
            let Mounted { disk, .. } = mounted;
            (Err(Stop::OutOfMemory), disk)
        }
    }
}

/// Fills the file of a new cell, and words how that ended.
fn fill_cell<D: Disk, I: Source>(
    alloc: Global,
    name: &Name,
    cell: FileCell<D>,
    input: &mut I,
) -> (Result<CommandOutcome, Stop>, D)
    requires fillable { IsFillable cell }
    requires sound { (state_now cell).failed ≡ None }
    requires fresh { cell.history ≡ [] }
    requires quiet { cell.count ≡ 0 }
    ensures fills { FillsCell name.now cell (D.states (D.kept result.1)) (I.left input.old) result.0 }
    ensures took { TakesSome (I.left input.old) (I.left input.new) }
    ensures silent { IfOk result.0 (λ outcome. outcome.status.0 ≡ 7 → outcome.text.items ≡ []) }
    ensures words { status_of result.0 ≢ 1 }
    ensures statuses { IfOk result.0 (λ outcome. (outcome.status.0 < 5) ⊎ (outcome.status.0 ≡ 7)) }
    ensures cause { HasEitherCause cell.count (D.faults result.1) (I.faults input.old) (I.faults input.new) result.0 }
{
    let mut cell = cell;
    let filled = fill_from(alloc, &mut cell, WINDOW, input);
    let (disk, _) = cell.into_disk();
    (words_of(alloc, name, filled), disk)
}

/// The outcome of a fill. A fault of the input or of the disk, and want of memory, have none.
fn words_of(
    alloc: Global,
    name: &Name,
    filled: Result<Filled, FillFailure>,
) -> Result<CommandOutcome, Stop>
    requires { HadNotFailed filled }
    ensures tells { TellsFill name.now filled result }
    ensures silent { IfOk result (λ outcome. outcome.status.0 ≡ 7 → outcome.text.items ≡ []) }
    ensures words { status_of result ≢ 1 }
    ensures statuses { IfOk result (λ outcome. (outcome.status.0 < 5) ⊎ (outcome.status.0 ≡ 7)) }
{
    match filled {
        Ok(filled) => words_of_end(alloc, name, filled),
        Err(FillFailure::Source(_)) => Err(Stop::Fault),
        Err(FillFailure::Stopped(stop)) => match stop {
            FillStop::DiskFault => Err(Stop::Fault),
            FillStop::OutOfMemory => Err(Stop::OutOfMemory),
            FillStop::HistoryFull { .. } => Ok(CommandOutcome {
                status: Status::HISTORY_FULL,
                text: Vec::new(alloc),
            }),
            FillStop::Failed { .. } => unreachable!(),
        },
    }
}

/// The outcome of a fill that came to an end of its stream.
fn words_of_end(alloc: Global, name: &Name, filled: Filled) -> Result<CommandOutcome, Stop>
    ensures outcome { IfOk result (EndsAs (filled_ending name.now filled filled.end)) }
    ensures statuses { IfOk result (λ outcome. outcome.status.0 < 5) }
    ensures words { IfOk result (λ outcome. outcome.status.0 ≢ 1) }
    ensures memory { IfErr result (λ stop. stop ≡ stop_out_of_memory) }
{
    match filled.end {
        FillEnd::Done => Ok(CommandOutcome {
            status: Status::DONE,
            text: fill_line(alloc, name.as_slice(), filled.written, filled.present)?,
        }),
        FillEnd::Refused(refusal) => refuse(alloc, name, piece_word(refusal)),
        FillEnd::Stream(fault) => { refuse_stream(alloc, frame_word(fault), fault_place(fault)?) }
    }
}

/// The word of a piece that the file doesn't take.
fn piece_word(refusal: PieceRefusal) -> &'static [u8]
    ensures value { result.now ≡ piece_word refusal }
{
    match refusal {
        PieceRefusal::UnknownFile => unknown_file(),
        PieceRefusal::Refused(error) => fill_word(error),
    }
}

/// Where a stream is refused. Want of memory has no place, and ends the command as such.
fn fault_place(fault: FrameFault) -> Result<u64, Stop>
    ensures value { IfOk result (λ at. at ≡ fault_place fault) }
    ensures memory { IfErr result (λ stop. stop ≡ stop_out_of_memory) }
{
    match fault {
        FrameFault::BadHello { at } => Ok(at),
        FrameFault::BadKind { at } => Ok(at),
        FrameFault::BadLength { at } => Ok(at),
        FrameFault::Cut { at } => Ok(at),
        FrameFault::TooLong { at } => Ok(at),
        FrameFault::OutOfMemory => Err(Stop::OutOfMemory),
    }
}
