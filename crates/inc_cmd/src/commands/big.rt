// A new file for a generated content: it is made, filled and checked.
ghost use Rattle.std.specs.Prelude.{◌≡◌, ◌≢◌, ℕ, ◌<◌, ◌≤◌, None, Some, Err, IfSome, IfOk, IfErr};
ghost use Rattle.std.specs.FinMap.{get};
ghost use Rattle.inc_io.specs.Causes.{HasCauseAt};
ghost use Rattle.inc_io.specs.Outside.{NoneOut};
ghost use Rattle.inc_disk.specs.Disk.{reads_of};
ghost use Rattle.inc_layout.specs.Fresh.{IsFreshImage, image_of};
ghost use Rattle.inc_loader.specs.PiecesLeft.{left_of};
ghost use Rattle.inc_tree.specs.shape.Limits.{most_size};
ghost use Rattle.inc_cmd.specs.Commands.Big.{IsFileFor, big_answer, big_ending, big_file, big_filled, big_fresh, big_id, big_over, big_pieces, big_text, filled_fresh, fresh_file};
ghost use Rattle.inc_cmd.specs.Commands.BigMoments.{AddsBig, IsBigMade, LeavesBig, SettlesBig, SettlesNew, Stores};
ghost use Rattle.inc_cmd.specs.Commands.Check.{AreAllProved, check_ending};
ghost use Rattle.inc_cmd.specs.Commands.Make.{AddsOnly};
ghost use Rattle.inc_cmd.specs.NewFiles.{TellsBig};
ghost use Rattle.inc_cmd.specs.Runs.{IfLogs, status_of};
ghost use Rattle.inc_words.specs.Endings.{AnswersAs, EndsAs};
ghost use Rattle.inc_words.specs.declared.stop.Stop.TheVariants.{Fault as stop_fault, OutOfMemory as stop_out_of_memory};

mod on_disk;

use super::check::check_file;
use super::inspect::root_line;
use crate::OutOfMemory;
use inc_bytes::{Id, put_u64};
use inc_disk::{Disk, Shelf};
use inc_io::{Bytes, Name};
use inc_layout::{FreshFault, FreshImage, fresh_image};
use inc_loader::{FileInWork, LoaderFile};
use inc_signature::{SigInfo, print};
use inc_tree::{Geometry, MOST_SIZE};
use inc_words::{CommandOutcome, Stop, big_line, exists, refuse, too_large, written_line};
use on_disk::fill_new;
use std::alloc::Global;

/// Makes a new file for the generated content of this number and size, fills all of it in, and checks it. The content is hashed before
/// anything is done on the shelf, so a name that is there is refused after that.
pub fn make_big<S: Shelf>(
    alloc: Global,
    name: &Name,
    number: u64,
    size: u64,
    shelf: &mut S,
) -> Result<CommandOutcome, Stop>
    requires { NoneOut (S.out shelf.old) }
    ensures answer { IfSome (S.contents (S.kept shelf.old)) (λ files. IfOk result (λ outcome. AnswersAs (big_answer name.now number size files) outcome (S.contents (S.kept shelf.new)))) }
    ensures shows { IfSome (S.contents (S.kept shelf.old)) (λ files. IfOk result (λ outcome. outcome.status.0 ≡ 0 →
        AreAllProved (big_filled number size).bytes (Some (big_file number size).root) None)) }
    ensures others { IfLogs (S.log (S.kept shelf.old)) (S.log (S.kept shelf.new)) (AddsBig name.now size) }
    ensures moments { IfLogs (S.log (S.kept shelf.old)) (S.log (S.kept shelf.new)) (LeavesBig name.now (big_fresh number size) (big_pieces number size)) }
    ensures settled { status_of result ≢ 5 → status_of result ≢ 6 → IfLogs (S.log (S.kept shelf.old)) (S.log (S.kept shelf.new)) (SettlesBig name.now number size) }
    ensures made { status_of result ≡ 0 → IfSome (S.log (S.kept shelf.new)) (IsBigMade name.now number size) }
    ensures words { status_of result ≢ 1 }
    ensures statuses { IfOk result (λ outcome. outcome.status.0 < 5) }
    ensures cause { HasCauseAt stop_fault (S.faults shelf.old) (S.faults shelf.new) result }
    ensures back { NoneOut (S.out shelf.new) }
{
    if size > MOST_SIZE {
        return refuse(alloc, name, too_large());
    }
    let id = big_id(number, size);
    let content = FileInWork::generated(alloc, number, id, size)?;
    let file = LoaderFile {
        id,
        size,
        root: content.root(),
    };
    let image = image_for(alloc, &file)?;
    create_big(alloc, name, &file, content, &image, shelf)
}

/// The number and the size, one after the other.
fn big_id(number: u64, size: u64) -> Id
    ensures value { result ≡ big_id number size }
{
    let mut id = [0; 16];
    put_u64(&mut id, 0, number);
    put_u64(&mut id, 8, size);
    id
}

/// The new file for a content: it is signed, with an empty signing info.
fn image_for(alloc: Global, file: &LoaderFile) -> Result<FreshImage, Stop>
    requires small { file.now.size ≤ most_size }
    ensures value { IfOk result (λ image. image_of image ≡ fresh_file file.now) }
    ensures stands { IfOk result (λ image. IsFileFor file.now (image_of image)) }
    ensures fresh { IfOk result (λ image. IsFreshImage (image_of image)) }
    ensures memory { IfErr result (λ stop. stop ≡ stop_out_of_memory) }
{
    let sig = SigInfo {
        root: file.root,
        signing: Bytes::from_vec(Vec::new(alloc)),
    };
    let blob = print(alloc, &sig)?;
    match fresh_image(alloc, file.size, file.id, blob.as_slice()) {
        Ok(image) => Ok(image),
        Err(FreshFault::OutOfMemory) => Err(Stop::OutOfMemory),
        Err(FreshFault::Signature(_)) => unreachable!(),
        Err(FreshFault::TooLarge) => unreachable!(),
    }
}

/// Lets the file come to stand, fills it and checks it. The disk is given back in any case.
fn create_big<S: Shelf>(
    alloc: Global,
    name: &Name,
    file: &LoaderFile,
    content: FileInWork,
    image: &FreshImage,
    shelf: &mut S,
) -> Result<CommandOutcome, Stop>
    requires none_out { NoneOut (S.out shelf.old) }
    requires own { content.file ≡ file.now }
    requires small { file.now.size ≤ most_size }
    requires stands { IsFileFor file.now (image_of image.now) }
    requires fresh { IsFreshImage (image_of image.now) }
    ensures answer { IfSome (S.contents (S.kept shelf.old)) (λ files. IfOk result (λ outcome.
        AnswersAs (big_over name.now file.now (left_of content) (image_of image.now) files (get files name.now)) outcome (S.contents (S.kept shelf.new)))) }
    ensures shows { IfSome (S.contents (S.kept shelf.old)) (λ files. IfOk result (λ outcome. outcome.status.0 ≡ 0 →
        AreAllProved (filled_fresh (left_of content) (image_of image.now)).bytes (Some file.now.root) None)) }
    ensures others { IfLogs (S.log (S.kept shelf.old)) (S.log (S.kept shelf.new)) (AddsOnly name.now) }
    ensures moments { IfLogs (S.log (S.kept shelf.old)) (S.log (S.kept shelf.new)) (LeavesBig name.now (image_of image.now) (left_of content)) }
    ensures settled { status_of result ≢ 5 → status_of result ≢ 6 → IfLogs (S.log (S.kept shelf.old)) (S.log (S.kept shelf.new)) (SettlesNew name.now (image_of image.now) (left_of content)) }
    ensures made { status_of result ≡ 0 → IfSome (S.log (S.kept shelf.new)) (Stores name.now (filled_fresh (left_of content) (image_of image.now)).bytes) }
    ensures words { status_of result ≢ 1 }
    ensures statuses { IfOk result (λ outcome. outcome.status.0 < 5) }
    ensures cause { HasCauseAt stop_fault (S.faults shelf.old) (S.faults shelf.new) result }
    ensures back { NoneOut (S.out shelf.new) }
{
    match shelf.create_disk(name)? {
        Some(disk) => {
            let (filled, disk) = fill_new(alloc, disk, image, file, content);
            let mut disk = disk;
            let end = tell_big(alloc, name, &mut disk, file, filled);
            shelf.close_disk(name, disk);
            end
        }
        None => refuse(alloc, name, exists()),
    }
}

/// The outcome of a file that was filled, once it is checked. Where another file stands on its disk, its name is one that is there already.
fn tell_big<D: Disk>(
    alloc: Global,
    name: &Name,
    disk: &mut D,
    file: &LoaderFile,
    filled: Result<Option<u64>, Stop>,
) -> Result<CommandOutcome, Stop>
    requires small { file.now.size ≤ most_size }
    ensures tells { TellsBig name.now file.now (reads_of (D.states (D.kept disk.old))) filled result }
    ensures shows { IfSome (reads_of (D.states (D.kept disk.old))) (λ bytes. IfOk result (λ outcome. outcome.status.0 ≡ 0 → AreAllProved bytes (Some file.now.root) None)) }
    ensures words { status_of result ≢ 1 }
    ensures statuses { IfOk result (λ outcome. outcome.status.0 < 5) }
    ensures states { D.states (D.kept disk.new) ≡ D.states (D.kept disk.old) }
    ensures cause { (before : ℕ) → HasCauseAt stop_fault before (D.faults disk.old) filled → HasCauseAt stop_fault before (D.faults disk.new) result }
{
    match filled {
        Ok(Some(written)) => check_big(alloc, name, disk, file, written),
        Ok(None) => refuse(alloc, name, exists()),
        Err(stop) => Err(stop),
    }
}

/// Checks the file against the root of its content.
fn check_big<D: Disk>(
    alloc: Global,
    name: &Name,
    disk: &mut D,
    file: &LoaderFile,
    written: u64,
) -> Result<CommandOutcome, Stop>
    requires small { file.now.size ≤ most_size }
    ensures answer { IfSome (D.reads (D.kept disk.old)) (λ bytes. IfOk result (EndsAs (big_ending name.now file.now written (check_ending name.now (Some file.now.root) bytes)))) }
    ensures shows { IfSome (D.reads (D.kept disk.old)) (λ bytes. IfOk result (λ outcome. outcome.status.0 ≡ 0 → AreAllProved bytes (Some file.now.root) None)) }
    ensures words { IfOk result (λ outcome. outcome.status.0 ≢ 1) }
    ensures statuses { IfOk result (λ outcome. outcome.status.0 < 5) }
    ensures kept { D.kept disk.new ≡ D.kept disk.old }
    ensures cause { HasCauseAt stop_fault (D.faults disk.old) (D.faults disk.new) result }
{
    let CommandOutcome { status, text } = check_file(alloc, name, disk, Some(file.root))?;
    Ok(CommandOutcome {
        status,
        text: big_text(alloc, name, file, written, text.as_slice())?,
    })
}

/// The lines of a big file, and behind them those of its check.
fn big_text(
    alloc: Global,
    name: &Name,
    file: &LoaderFile,
    written: u64,
    checked: &[u8],
) -> Result<Vec<u8>, OutOfMemory>
    requires small { file.now.size ≤ most_size }
    ensures value { IfOk result (λ text. text.items ≡ big_text name.now file.now written checked.now) }
{
    let Ok(tree) = Geometry::of(file.size) else {
        unreachable!()
    };
    let mut text = big_line(
        alloc,
        name.as_slice(),
        file.size,
        tree.data_blocks(),
        tree.hash_blocks(),
    )?;
    text.extend_from_slice(root_line(alloc, &file.root)?.as_slice())?;
    text.extend_from_slice(written_line(alloc, written)?.as_slice())?;
    text.extend_from_slice(checked)?;
    Ok(text)
}
