// A mapped name: a part of another file's content, which is read over that file.
ghost use Rattle.std.specs.Prelude.{◌≡◌, ◌≢◌, ◌+◌, ◌<◌, ◌≤◌, Some, Err, IfSome, IfOk, IsSomeAnd};
ghost use Rattle.std.specs.FinMap.{get};
ghost use Rattle.inc_io.specs.Causes.{HasCauseAt};
ghost use Rattle.inc_io.specs.Outside.{NoneOut};
ghost use Rattle.inc_header.specs.Header.{MayMap, place_of};
ghost use Rattle.inc_layout.specs.Backing.{IsLaidOut, laid_of};
ghost use Rattle.inc_layout.specs.opening.Opening.{IsSoundLayout};
ghost use Rattle.inc_mapped.specs.Mapping.{IsMappedKind, mapping_of};
ghost use Rattle.inc_cmd.specs.Commands.{ShowsOf, VouchesOf, original_ending, part_ending, part_laid_as};
ghost use Rattle.inc_cmd.specs.Commands.Inspect.{mapping_line, size_and_offset};
ghost use Rattle.inc_cmd.specs.Commands.Names.{IsMappedAs, bytes_with_id};
ghost use Rattle.inc_cmd.specs.Commands.Parts.{EndsIn};
ghost use Rattle.inc_words.specs.Endings.{EndsAs, done};
ghost use Rattle.inc_words.specs.declared.stop.Stop.TheVariants.{Fault as stop_fault, OutOfMemory as stop_out_of_memory};

use super::check::check_laid;
use super::read::read_laid_out;
use crate::OutOfMemory;
use inc_bytes::Id;
use inc_header::{Header, HeaderKind};
use inc_io::{Backing, Name, ReadShelf};
use inc_layout::{Layout, LayoutFault, open_shape};
use inc_mapped::{MapFault, MappedFile};
use inc_volume::find_holder;
use inc_words::{
    CommandOutcome, FileCommand, Status, Stop, no_original, past_original, refuse, refuse_layout,
};
use std::alloc::Global;

/// Does a command over a mapped name with this header. Of the shelf it lends the file that keeps the original's id.
pub fn over_original<S: ReadShelf>(
    alloc: Global,
    name: &Name,
    command: FileCommand,
    shelf: &mut S,
    header: &Header,
) -> Result<CommandOutcome, Stop>
    requires none_out { NoneOut (S.out shelf.old) }
    requires mapped { IsMappedKind header.now.kind }
    requires mapping { MayMap header.now.kind header.now.size }
    requires judged { IfSome (S.contents (S.kept shelf.old)) (λ files. IsMappedAs files name.now header.now.id (mapping_of header.now)) }
    ensures answer { IfSome (S.contents (S.kept shelf.old)) (λ files. IfOk result (EndsAs
        (original_ending command name.now header.now.id (mapping_of header.now) (bytes_with_id files header.now.id)))) }
    ensures shows { IfSome (S.contents (S.kept shelf.old)) (λ files. IfOk result (λ outcome. outcome.status.0 ≡ 0 →
        IsSomeAnd (bytes_with_id files header.now.id) (λ bytes. ShowsOf command outcome.text.items (Some (mapping_of header.now)) bytes))) }
    ensures vouched { IfOk result (λ outcome. outcome.status.0 ≡ 0 → VouchesOf command (Some (mapping_of header.now)) outcome.text.items) }
    ensures words { IfOk result (λ outcome. outcome.status.0 ≢ 1) }
    ensures statuses { IfOk result (λ outcome. outcome.status.0 < 5) }
    ensures cause { HasCauseAt stop_fault (S.faults shelf.old) (S.faults shelf.new) result }
    ensures kept { S.kept shelf.new ≡ S.kept shelf.old }
    ensures back { NoneOut (S.out shelf.new) }
{
    let Some(holder) = find_holder(alloc, shelf, &header.id)? else {
        return refuse(alloc, name, no_original());
    };
    let Some(mut file) = shelf.open_read(&holder.name)? else {
        return refuse(alloc, name, no_original());
    };
    let outcome = over_part(alloc, name, &mut file, command, header);
    shelf.close_read(&holder.name, file);
    outcome
}

/// Does a command over the original of a mapped name.
fn over_part<B: Backing>(
    alloc: Global,
    name: &Name,
    file: &mut B,
    command: FileCommand,
    header: &Header,
) -> Result<CommandOutcome, Stop>
    requires mapped { IsMappedKind header.now.kind }
    requires mapping { MayMap header.now.kind header.now.size }
    ensures answer { IfSome (B.reads (B.kept file.old)) (λ bytes. EndsIn bytes (mapping_of header.now) → IfOk result (EndsAs
        (part_laid_as command name.now header.now.id (mapping_of header.now) bytes (laid_of bytes)))) }
    ensures shows { IfSome (B.reads (B.kept file.old)) (λ bytes. IfOk result (λ outcome. outcome.status.0 ≡ 0 →
        ShowsOf command outcome.text.items (Some (mapping_of header.now)) bytes)) }
    ensures vouched { IfOk result (λ outcome. outcome.status.0 ≡ 0 → VouchesOf command (Some (mapping_of header.now)) outcome.text.items) }
    ensures words { IfOk result (λ outcome. outcome.status.0 ≢ 1) }
    ensures statuses { IfOk result (λ outcome. outcome.status.0 < 5) }
    ensures kept { B.kept file.new ≡ B.kept file.old }
    ensures cause { HasCauseAt stop_fault (B.faults file.old) (B.faults file.new) result }
{
    match open_shape(alloc, file) {
        Ok(layout) => over_laid(alloc, name, file, layout, command, header),
        Err(fault) => refuse_layout(alloc, name, fault),
    }
}

/// The same where the original's layout stands. A part that ends past it is refused, in case another file has come to its place.
fn over_laid<B: Backing>(
    alloc: Global,
    name: &Name,
    file: &mut B,
    layout: Layout,
    command: FileCommand,
    header: &Header,
) -> Result<CommandOutcome, Stop>
    requires mapped { IsMappedKind header.now.kind }
    requires mapping { MayMap header.now.kind header.now.size }
    requires sound { IsSoundLayout layout }
    requires stands { IfSome (B.reads (B.kept file.old)) (λ bytes. IsLaidOut bytes layout) }
    ensures answer { IfSome (B.reads (B.kept file.old)) (λ bytes. place_of header.now.kind + header.now.size ≤ layout.header.size → IfOk result (EndsAs
        (part_ending command name.now header.now.id (mapping_of header.now) bytes layout))) }
    ensures shows { IfSome (B.reads (B.kept file.old)) (λ bytes. IfOk result (λ outcome. outcome.status.0 ≡ 0 →
        ShowsOf command outcome.text.items (Some (mapping_of header.now)) bytes)) }
    ensures vouched { IfOk result (λ outcome. outcome.status.0 ≡ 0 → VouchesOf command (Some (mapping_of header.now)) outcome.text.items) }
    ensures words { IfOk result (λ outcome. outcome.status.0 ≢ 1) }
    ensures statuses { IfOk result (λ outcome. outcome.status.0 < 5) }
    ensures kept { B.kept file.new ≡ B.kept file.old }
    ensures cause { HasCauseAt stop_fault (B.faults file.old) (B.faults file.new) result }
{
    let part = match MappedFile::of(header, &layout.areas.geometry) {
        Ok(mapped) => Some(mapped),
        Err(MapFault::PastOriginal) => return refuse(alloc, name, past_original()),
    };
    match command {
        FileCommand::Read {
            index,
            root,
            unproved,
        } => read_laid_out(alloc, name, file, &layout, &part, index, root, unproved),
        FileCommand::Check { root } => check_laid(alloc, name, file, layout, &part, root),
        FileCommand::Inspect => inspect_mapped(alloc, header),
        FileCommand::Ranges { .. } => refuse_layout(alloc, name, LayoutFault::Mapped),
    }
}

/// What a mapped name says of itself.
fn inspect_mapped(alloc: Global, header: &Header) -> Result<CommandOutcome, Stop>
    requires mapped { IsMappedKind header.now.kind }
    ensures outcome { IfOk result (EndsAs (done (mapping_line (mapping_of header.now) header.now.id))) }
    ensures done { IfOk result (λ outcome. outcome.status.0 ≡ 0) }
    ensures memory { result ≢ Err stop_fault }
{
    let HeaderKind::Mapped { offset } = header.kind else {
        unreachable!()
    };
    Ok(CommandOutcome {
        status: Status::DONE,
        text: mapping_line(alloc, header.size, offset, &header.id)?,
    })
}

#[tactic(auto, unfolding(crate::specs::Commands::Inspect::mapping_line))]
fn mapping_line(
    alloc: Global,
    size: u64,
    offset: u64,
    original: &Id,
) -> Result<Vec<u8>, OutOfMemory>
    ensures value { IfOk result (λ line. line.items ≡ mapping_line (record { offset = offset; size = size }) original.now) }
{
    let original = hex::encode(alloc, original.as_slice())?;
    let mut line = b"mapped size ".to_vec(alloc)?;
    line.extend_from_slice(size_and_offset(alloc, size, offset)?.as_slice())?;
    line.extend_from_slice(b" original ")?;
    line.extend_from_slice(original.as_bytes())?;
    line.extend_from_slice(b"\n")?;
    Ok(line)
}

#[tactic(auto, unfolding(crate::specs::Commands::Inspect::size_and_offset))]
fn size_and_offset(alloc: Global, size: u64, offset: u64) -> Result<Vec<u8>, OutOfMemory>
    ensures value { IfOk result (λ text. text.items ≡ size_and_offset (record { offset = offset; size = size })) }
{
    Ok(format!(in alloc; "{size} offset {offset}")?.into_bytes())
}
