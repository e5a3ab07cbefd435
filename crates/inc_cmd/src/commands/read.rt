// A data block of a file, as it is shown.
ghost use Rattle.std.specs.Prelude.{◌≡◌, ◌≢◌, ◌<◌, true, false, take, IfSome, IfNone, IfOk, IsSome, None, Some, Err};
ghost use Rattle.inc_io.specs.Causes.{HasCauseAt};
ghost use Rattle.inc_tree.specs.read_block.Shown.{shown_content};
ghost use Rattle.inc_tree.specs.read_block.Verified.{content_of};
ghost use Rattle.inc_layout.specs.Backing.{IsLaidOut};
ghost use Rattle.inc_layout.specs.opening.Opening.{IsSoundLayout};
ghost use Rattle.inc_layout.specs.reading.StaticRead.{IsContent, static_reading};
ghost use Rattle.inc_cmd.specs.Commands.Parts.{IsFrontContent, IsPartContent, front_read, name_reading};
ghost use Rattle.inc_cmd.specs.Commands.Read.{IsMarked, IsProvedText, ProvesFront, ProvesText, ShowsBlock, VouchesFront, VouchesName, VouchesRead, read_ending, root_refusal, shown, shown_in, sig_refusal, unsigned_refusal};
ghost use Rattle.inc_words.specs.Endings.{EndsAs};
ghost use Rattle.inc_words.specs.declared.stop.Stop.TheVariants.{Fault as stop_fault};

use crate::OutOfMemory;
use inc_io::{Backing, Name};
use inc_layout::{Layout, StaticError, open_shape, show_laid};
use inc_mapped::MappedFile;
use inc_signature::SigInfo;
use inc_tree::{Digest32, Shown, Verified};
use inc_words::{
    CommandOutcome, Status, Stop, refuse, refuse_block, refuse_layout, root_differs, unsigned,
};
use std::alloc::Global;

/// Reads a block of a file. Of the file it reads its layout, the block and the hash blocks on the block's path.
pub fn read_block<B: Backing>(
    alloc: Global,
    name: &Name,
    file: &mut B,
    index: u32,
    root: Option<Digest32>,
    unproved: bool,
) -> Result<CommandOutcome, Stop>
    ensures answer { IfSome (B.reads (B.kept file.old)) (λ bytes. IfOk result (EndsAs (read_ending name.now index root unproved bytes))) }
    ensures shows { IfSome (B.reads (B.kept file.old)) (λ bytes. IfOk result (λ outcome. outcome.status.0 ≡ 0 →
        ShowsBlock bytes index root unproved None outcome.text.items)) }
    ensures vouched { IfOk result (λ outcome. outcome.status.0 ≡ 0 → VouchesRead index root unproved None outcome.text.items) }
    ensures words { IfOk result (λ outcome. outcome.status.0 ≢ 1) }
    ensures statuses { IfOk result (λ outcome. outcome.status.0 < 5) }
    ensures kept { B.kept file.new ≡ B.kept file.old }
    ensures cause { HasCauseAt stop_fault (B.faults file.old) (B.faults file.new) result }
{
    match open_shape(alloc, file) {
        Ok(layout) => read_laid_out(alloc, name, file, &layout, &None, index, root, unproved),
        Err(fault) => refuse_layout(alloc, name, fault),
    }
}

/// Reads a block that a name has, of a file whose layout stands and of which the name shows all or this part.
pub fn read_laid_out<B: Backing>(
    alloc: Global,
    name: &Name,
    file: &mut B,
    layout: &Layout,
    part: &Option<MappedFile>,
    index: u32,
    root: Option<Digest32>,
    unproved: bool,
) -> Result<CommandOutcome, Stop>
    requires sound { IsSoundLayout layout.now }
    requires stands { IfSome (B.reads (B.kept file.old)) (λ bytes. IsLaidOut bytes layout.now) }
    ensures answer { IfSome (B.reads (B.kept file.old)) (λ bytes. IfOk result (EndsAs (shown_in name.now index root unproved bytes layout.now part.now))) }
    ensures shows { IfSome (B.reads (B.kept file.old)) (λ bytes. IfOk result (λ outcome. outcome.status.0 ≡ 0 →
        ShowsBlock bytes index root unproved part.now outcome.text.items)) }
    ensures vouched { IfOk result (λ outcome. outcome.status.0 ≡ 0 → VouchesRead index root unproved part.now outcome.text.items) }
    ensures words { IfOk result (λ outcome. outcome.status.0 ≢ 1) }
    ensures statuses { IfOk result (λ outcome. outcome.status.0 < 5) }
    ensures kept { B.kept file.new ≡ B.kept file.old }
    ensures cause { HasCauseAt stop_fault (B.faults file.old) (B.faults file.new) result }
{
    match sig_refusal(&layout.sig, root, unproved) {
        Some(word) => refuse(alloc, name, word),
        None => match part {
            None => show_own(alloc, file, layout, index),
            Some(mapped) => show_part(alloc, file, layout, mapped, index),
        },
    }
}

/// Shows a block of the file, whole.
fn show_own<B: Backing>(
    alloc: Global,
    file: &mut B,
    layout: &Layout,
    index: u32,
) -> Result<CommandOutcome, Stop>
    requires sound { IsSoundLayout layout.now }
    requires stands { IfSome (B.reads (B.kept file.old)) (λ bytes. IsLaidOut bytes layout.now) }
    ensures answer { IfSome (B.reads (B.kept file.old)) (λ bytes. IfOk result (EndsAs (shown index (static_reading bytes layout.now index)))) }
    ensures shows { IfSome (B.reads (B.kept file.old)) (λ bytes. IfOk result (λ outcome. outcome.status.0 ≡ 0 → IsContent bytes layout.now index outcome.text.items)) }
    ensures vouched { IfOk result (λ outcome. outcome.status.0 ≡ 0 → VouchesName layout.now.sig None index outcome.text.items) }
    ensures words { IfOk result (λ outcome. outcome.status.0 ≢ 1) }
    ensures statuses { IfOk result (λ outcome. outcome.status.0 < 5) }
    ensures kept { B.kept file.new ≡ B.kept file.old }
    ensures cause { HasCauseAt stop_fault (B.faults file.old) (B.faults file.new) result }
{
    match show_laid(alloc, file, layout, index) {
        Ok(block) => show(alloc, &block),
        Err(error) => refuse_block(alloc, index, error),
    }
}

/// Shows the block that a mapped name has at this index.
fn show_part<B: Backing>(
    alloc: Global,
    file: &mut B,
    layout: &Layout,
    mapped: &MappedFile,
    index: u32,
) -> Result<CommandOutcome, Stop>
    requires sound { IsSoundLayout layout.now }
    requires stands { IfSome (B.reads (B.kept file.old)) (λ bytes. IsLaidOut bytes layout.now) }
    ensures answer { IfSome (B.reads (B.kept file.old)) (λ bytes. IfOk result (EndsAs (shown index (name_reading bytes layout.now (Some mapped.now) index)))) }
    ensures shows { IfSome (B.reads (B.kept file.old)) (λ bytes. IfOk result (λ outcome. outcome.status.0 ≡ 0 →
        IsPartContent bytes layout.now mapped.now index outcome.text.items)) }
    ensures vouched { IfOk result (λ outcome. outcome.status.0 ≡ 0 → VouchesName layout.now.sig (Some mapped.now) index outcome.text.items) }
    ensures words { IfOk result (λ outcome. outcome.status.0 ≢ 1) }
    ensures statuses { IfOk result (λ outcome. outcome.status.0 < 5) }
    ensures kept { B.kept file.new ≡ B.kept file.old }
    ensures cause { HasCauseAt stop_fault (B.faults file.old) (B.faults file.new) result }
{
    match mapped.translate(index) {
        Some((block, count)) => show_front(alloc, file, layout, index, block, count),
        None => refuse_block(alloc, index, StaticError::OutOfRange),
    }
}

/// Shows so many of the first bytes of a block of the file, which the name has at this index.
fn show_front<B: Backing>(
    alloc: Global,
    file: &mut B,
    layout: &Layout,
    index: u32,
    block: u32,
    count: u32,
) -> Result<CommandOutcome, Stop>
    requires sound { IsSoundLayout layout.now }
    requires stands { IfSome (B.reads (B.kept file.old)) (λ bytes. IsLaidOut bytes layout.now) }
    ensures answer { IfSome (B.reads (B.kept file.old)) (λ bytes. IfOk result (EndsAs (shown index (front_read count (static_reading bytes layout.now block))))) }
    ensures shows { IfSome (B.reads (B.kept file.old)) (λ bytes. IfOk result (λ outcome. outcome.status.0 ≡ 0 →
        IsFrontContent bytes layout.now block count outcome.text.items)) }
    ensures vouched { IfOk result (λ outcome. outcome.status.0 ≡ 0 → VouchesFront layout.now.sig block count outcome.text.items) }
    ensures words { IfOk result (λ outcome. outcome.status.0 ≢ 1) }
    ensures statuses { IfOk result (λ outcome. outcome.status.0 < 5) }
    ensures kept { B.kept file.new ≡ B.kept file.old }
    ensures cause { HasCauseAt stop_fault (B.faults file.old) (B.faults file.new) result }
{
    match show_laid(alloc, file, layout, block) {
        Ok(shown) => show_count(alloc, &shown, count),
        Err(error) => refuse_block(alloc, index, error),
    }
}

/// The word by which a file is refused for its signature: it names another root than the one given, or there is none and the block isn't
/// taken unproved.
pub fn sig_refusal(
    sig: &Option<SigInfo>,
    root: Option<Digest32>,
    unproved: bool,
) -> Option<&'static [u8]>
    ensures word { IfSome result (λ word. sig_refusal unproved root sig.now ≡ Some word.now) }
    ensures none { IfNone result (sig_refusal unproved root sig.now ≡ None) }
    ensures marked { IfNone result (IsMarked sig.now root unproved) }
    ensures signed { IfNone result (unproved ≡ false → IsSome sig.now) }
{
    match sig {
        Some(sig) => root_refusal(sig, root),
        None => unsigned_refusal(root, unproved),
    }
}

fn root_refusal(sig: &SigInfo, root: Option<Digest32>) -> Option<&'static [u8]>
    ensures word { IfSome result (λ word. root_refusal root sig.now ≡ Some word.now) }
    ensures none { IfNone result (root_refusal root sig.now ≡ None) }
    ensures given { IfNone result (IfSome root (λ given. sig.now.root ≡ given)) }
{
    if let Some(root) = root {
        if sig.root != root {
            return Some(root_differs());
        }
    }
    None
}

fn unsigned_refusal(root: Option<Digest32>, unproved: bool) -> Option<&'static [u8]>
    ensures word { IfSome result (λ word. unsigned_refusal unproved root ≡ Some word.now) }
    ensures none { IfNone result (unsigned_refusal unproved root ≡ None) }
    ensures marked { IfNone result (IsMarked None root unproved) }
    ensures taken { IfNone result (unproved ≡ true) }
{
    match root {
        Some(_) => Some(unsigned()),
        None => { if unproved { None } else { Some(unsigned()) } }
    }
}

/// The outcome of a block that is shown.
fn show(alloc: Global, block: &Shown) -> Result<CommandOutcome, Stop>
    ensures done { IfOk result (λ outcome. outcome.status.0 ≡ 0) }
    ensures text { IfOk result (λ outcome. outcome.text.items ≡ shown_content block.now) }
    ensures proved { IfOk result (λ outcome. ProvesText block.now outcome.text.items) }
    ensures memory { result ≢ Err stop_fault }
{
    Ok(CommandOutcome {
        status: Status::DONE,
        text: text_of(alloc, block)?,
    })
}

/// The outcome of a block of which so many of the first bytes are shown.
fn show_count(alloc: Global, block: &Shown, count: u32) -> Result<CommandOutcome, Stop>
    ensures done { IfOk result (λ outcome. outcome.status.0 ≡ 0) }
    ensures text { IfOk result (λ outcome. outcome.text.items ≡ take count (shown_content block.now)) }
    ensures proved { IfOk result (λ outcome. ProvesFront block.now count outcome.text.items) }
    ensures memory { result ≢ Err stop_fault }
{
    Ok(CommandOutcome {
        status: Status::DONE,
        text: front_of(alloc, block, count)?,
    })
}

fn front_of(alloc: Global, block: &Shown, count: u32) -> Result<Vec<u8>, OutOfMemory>
    ensures content { IfOk result (λ text. text.items ≡ take count (shown_content block.now)) }
    ensures proved { IfOk result (λ text. ProvesFront block.now count text.items) }
{
    let mut text = text_of(alloc, block)?;
    text.truncate(count as usize);
    Ok(text)
}

fn text_of(alloc: Global, block: &Shown) -> Result<Vec<u8>, OutOfMemory>
    ensures content { IfOk result (λ text. text.items ≡ shown_content block.now) }
    ensures proved { IfOk result (λ text. ProvesText block.now text.items) }
{
    match block {
        Shown::Proved(block) => proved_text(alloc, block),
        Shown::Unproved(block) => block.content().to_vec(alloc),
    }
}

/// The content of a checked block. Its bytes and those of its path are whole blocks.
fn proved_text(alloc: Global, block: &Verified) -> Result<Vec<u8>, OutOfMemory>
    ensures content { IfOk result (λ text. text.items ≡ content_of block.now) }
    ensures proved { IfOk result (λ text. IsProvedText block.now.root block.now.geometry block.now.index text.items) }
{
    let _bytes = block.bytes.as_slice();
    let _hashes = block.path.as_slice();
    let text = block.content().to_vec(alloc)?;
    Ok(text)
}
