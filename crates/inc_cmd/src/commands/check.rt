// All data blocks of a file, one after another.
ghost use Rattle.std.specs.Prelude.{◌≡◌, ◌≢◌, ◌++◌, ◌<◌, ◌≤◌, if◌then◌else◌, None, IfSome, IfOk, IfErr, IsSome};
ghost use Rattle.inc_io.specs.Causes.{HasCauseAt};
ghost use Rattle.inc_layout.specs.Backing.{IsBackingFile, IsLaidOut, layout_in};
ghost use Rattle.inc_layout.specs.reading.Checking.{AreKept, GivesCheck};
ghost use Rattle.inc_layout.specs.declared.reading.static_error.StaticError.TheVariants.{ReadFault as read_fault};
ghost use Rattle.inc_layout.specs.opening.Opening.{IsSoundLayout, IsSoundOpened};
ghost use Rattle.inc_cmd.specs.Commands.Check.{AreAllProved, IsCheckOf, check_ending, check_laid, checked, checked_in, is_good, line_in};
ghost use Rattle.inc_cmd.specs.Commands.Parts.{BeginsBlock, block_behind, name_blocks, name_reading};
ghost use Rattle.inc_words.specs.Endings.{EndsAs};
ghost use Rattle.inc_words.specs.declared.stop.Stop.TheVariants.{Fault as stop_fault, OutOfMemory as stop_out_of_memory};

use super::read::sig_refusal;
use inc_io::{Backing, Name};
use inc_layout::{KeptPath, Layout, Opened, StaticError, check_opened, open_digests, open_shape};
use inc_mapped::MappedFile;
use inc_tree::Digest32;
use inc_words::{CommandOutcome, Status, Stop, checked_line, refuse, refuse_block, refuse_layout};
use std::alloc::Global;

/// What a check of a file found.
#[derive(Drop)]
pub struct Checked {
    /// A line for each data block that isn't good, in rising order.
    pub lines: Vec<u8>,
    pub good: u32,
    pub count: u32,
}

/// Checks each data block of a file. It reads every stored block, once the file isn't refused by its layout or its signature.
pub fn check_file<B: Backing>(
    alloc: Global,
    name: &Name,
    file: &mut B,
    root: Option<Digest32>,
) -> Result<CommandOutcome, Stop>
    ensures answer { IfSome (B.reads (B.kept file.old)) (λ bytes. IfOk result (EndsAs (check_ending name.now root bytes))) }
    ensures shows { IfSome (B.reads (B.kept file.old)) (λ bytes. IfOk result (λ outcome. outcome.status.0 ≡ 0 → AreAllProved bytes root None)) }
    ensures words { IfOk result (λ outcome. outcome.status.0 ≢ 1) }
    ensures statuses { IfOk result (λ outcome. outcome.status.0 < 5) }
    ensures kept { B.kept file.new ≡ B.kept file.old }
    ensures cause { HasCauseAt stop_fault (B.faults file.old) (B.faults file.new) result }
{
    match open_shape(alloc, file) {
        Ok(layout) => check_laid(alloc, name, file, layout, &None, root),
        Err(fault) => refuse_layout(alloc, name, fault),
    }
}

/// Checks the blocks that a name has, of a file whose layout stands and of which the name shows all or this part. For its signature it is
/// refused before a block is read.
pub fn check_laid<B: Backing>(
    alloc: Global,
    name: &Name,
    file: &mut B,
    layout: Layout,
    part: &Option<MappedFile>,
    root: Option<Digest32>,
) -> Result<CommandOutcome, Stop>
    requires begins { BeginsBlock part.now }
    requires sound { IsSoundLayout layout }
    requires stands { IfSome (B.reads (B.kept file.old)) (λ bytes. IsLaidOut bytes layout) }
    ensures answer { IfSome (B.reads (B.kept file.old)) (λ bytes. IfOk result (EndsAs (check_laid name.now root bytes layout part.now))) }
    ensures shows { IfSome (B.reads (B.kept file.old)) (λ bytes. IfOk result (λ outcome. outcome.status.0 ≡ 0 → AreAllProved bytes root part.now)) }
    ensures words { IfOk result (λ outcome. outcome.status.0 ≢ 1) }
    ensures statuses { IfOk result (λ outcome. outcome.status.0 < 5) }
    ensures kept { B.kept file.new ≡ B.kept file.old }
    ensures cause { HasCauseAt stop_fault (B.faults file.old) (B.faults file.new) result }
{
    if let Some(word) = sig_refusal(&layout.sig, root, false) {
        return refuse(alloc, name, word);
    }
    match open_digests(alloc, file, layout) {
        Ok(opened) => check_digests(alloc, file, &opened, part),
        Err(fault) => refuse_layout(alloc, name, fault),
    }
}

/// Checks the blocks of an opened file that is signed.
fn check_digests<B: Backing>(
    alloc: Global,
    file: &mut B,
    opened: &Opened,
    part: &Option<MappedFile>,
) -> Result<CommandOutcome, Stop>
    requires sound { IsSoundOpened opened.now }
    requires signed { IsSome opened.now.sig }
    requires stands { IfSome (B.reads (B.kept file.old)) (λ bytes. IsBackingFile bytes opened.now) }
    ensures answer { IfSome (B.reads (B.kept file.old)) (λ bytes. IfOk result (EndsAs (checked_in bytes (layout_in opened.now) part.now))) }
    ensures words { IfOk result (λ outcome. outcome.status.0 ≢ 1) }
    ensures statuses { IfOk result (λ outcome. outcome.status.0 < 5) }
    ensures kept { B.kept file.new ≡ B.kept file.old }
    ensures cause { HasCauseAt stop_fault (B.faults file.old) (B.faults file.new) result }
{
    let found = check_blocks(alloc, file, opened, part)?;
    show_checked(alloc, found)
}

fn show_checked(alloc: Global, found: Checked) -> Result<CommandOutcome, Stop>
    ensures outcome { IfOk result (EndsAs (checked found.count found.lines.items found.good)) }
    ensures memory { IfErr result (λ stop. stop ≡ stop_out_of_memory) }
{
    let Checked { lines, good, count } = found;
    let mut text = lines;
    text.extend_from_slice(checked_line(alloc, good, count)?.as_slice())?;
    let status = if good == count {
        Status::DONE
    } else {
        Status::NOT_SHOWN
    };
    Ok(CommandOutcome { status, text })
}

fn check_blocks<B: Backing>(
    alloc: Global,
    file: &mut B,
    opened: &Opened,
    part: &Option<MappedFile>,
) -> Result<Checked, Stop>
    requires sound { IsSoundOpened opened.now }
    requires signed { IsSome opened.now.sig }
    requires stands { IfSome (B.reads (B.kept file.old)) (λ bytes. IsBackingFile bytes opened.now) }
    ensures answer { IfSome (B.reads (B.kept file.old)) (λ bytes. IfOk result (IsCheckOf bytes (layout_in opened.now) part.now (name_blocks (layout_in opened.now) part.now))) }
    ensures kept { B.kept file.new ≡ B.kept file.old }
    ensures cause { HasCauseAt stop_fault (B.faults file.old) (B.faults file.new) result }
{
    let count = block_count(opened, part);
    let mut path = KeptPath::new(alloc);
    let mut lines = Vec::new(alloc);
    let mut good = 0;
    for index in 0..count {
        good += check_block(alloc, file, opened, part, &mut path, index, &mut lines)?;
    }
    Ok(Checked { lines, good, count })
}

/// How many blocks the name has.
fn block_count(opened: &Opened, part: &Option<MappedFile>) -> u32
    ensures value { result ≡ name_blocks (layout_in opened.now) part.now }
{
    match part {
        None => opened.areas.geometry.data_blocks(),
        Some(mapped) => mapped.block_count(),
    }
}

/// Checks a block, and adds its line where it isn't good. It answers how many good blocks that is, 1 or 0.
fn check_block<B: Backing>(
    alloc: Global,
    file: &mut B,
    opened: &Opened,
    part: &Option<MappedFile>,
    path: &mut KeptPath,
    index: u32,
    lines: &mut Vec<u8>,
) -> Result<u32, Stop>
    requires sound { IsSoundOpened opened.now }
    requires signed { IsSome opened.now.sig }
    requires stands { IfSome (B.reads (B.kept file.old)) (λ bytes. IsBackingFile bytes opened.now) }
    requires before { IfSome (B.reads (B.kept file.old)) (λ bytes. AreKept bytes opened.now.areas path.old) }
    ensures good { IfSome (B.reads (B.kept file.old)) (λ bytes. IfOk result (λ good. good ≡ (if is_good bytes (layout_in opened.now) part.now index then 1 else 0))) }
    ensures one { IfOk result (λ good. good ≤ 1) }
    ensures line { IfSome (B.reads (B.kept file.old)) (λ bytes. IfOk result (λ good. lines.new.items ≡ lines.old.items ++ line_in bytes (layout_in opened.now) part.now index)) }
    ensures after { IfSome (B.reads (B.kept file.old)) (λ bytes. AreKept bytes opened.now.areas path.new) }
    ensures kept { B.kept file.new ≡ B.kept file.old }
    ensures cause { HasCauseAt stop_fault (B.faults file.old) (B.faults file.new) result }
{
    match check_named(alloc, file, opened, part, path, index) {
        Ok(()) => Ok(1),
        Err(error) => {
            let outcome = refuse_block(alloc, index, error)?;
            lines.extend_from_slice(outcome.text.as_slice())?;
            Ok(0)
        }
    }
}

/// Checks what the name has at this index.
fn check_named<B: Backing>(
    alloc: Global,
    file: &mut B,
    opened: &Opened,
    part: &Option<MappedFile>,
    path: &mut KeptPath,
    index: u32,
) -> Result<(), StaticError>
    requires sound { IsSoundOpened opened.now }
    requires signed { IsSome opened.now.sig }
    requires stands { IfSome (B.reads (B.kept file.old)) (λ bytes. IsBackingFile bytes opened.now) }
    requires before { IfSome (B.reads (B.kept file.old)) (λ bytes. AreKept bytes opened.now.areas path.old) }
    ensures answer { IfSome (B.reads (B.kept file.old)) (λ bytes. GivesCheck result (name_reading bytes (layout_in opened.now) part.now index)) }
    ensures after { IfSome (B.reads (B.kept file.old)) (λ bytes. AreKept bytes opened.now.areas path.new) }
    ensures kept { B.kept file.new ≡ B.kept file.old }
    ensures cause { HasCauseAt read_fault (B.faults file.old) (B.faults file.new) result }
{
    match block_behind(part, index) {
        Some(block) => check_opened(alloc, file, opened, path, block),
        None => Err(StaticError::OutOfRange),
    }
}

/// The file's block behind what the name has at this index.
fn block_behind(part: &Option<MappedFile>, index: u32) -> Option<u32>
    ensures value { result ≡ block_behind part.now index }
{
    match part {
        None => Some(index),
        Some(mapped) => match mapped.translate(index) {
            Some((block, _)) => Some(block),
            None => None,
        },
    }
}
