// A new file.
ghost use Rattle.std.specs.Prelude.{◌≡◌, ◌≢◌, ◌<◌, [], false, length, not, IfSome, IfOk, OnOk, Err};
ghost use Rattle.std.specs.FinMap.{get};
ghost use Rattle.inc_io.specs.Causes.{HasCause, HasCauseAt};
ghost use Rattle.inc_io.specs.Outside.{NoneOut};
ghost use Rattle.inc_disk.specs.Disk.{Now, settled};
ghost use Rattle.inc_disk.specs.Laws.{LeavesOnly};
ghost use Rattle.inc_tree.specs.shape.Geometry.{data_blocks, flat_of, hash_blocks, tree_of};
ghost use Rattle.inc_layout.specs.Fresh.{IsFreshImage, fresh_of, image_of, unsigned_of};
ghost use Rattle.inc_recover.specs.Making.{MayBeLeft};
ghost use Rattle.inc_cmd.specs.Commands.Make.{AddsOnly, IsMade, LeavesNew, blob_of, made, make_answer, most_taken, new_file, sized};
ghost use Rattle.inc_words.specs.Endings.{AnswersAs, EndsAs};
ghost use Rattle.inc_cmd.specs.Runs.{HasCauseIn, HasEitherCause, IfLogs, IfTold, KeepsInput, TakesFront, given_to, status_of};
ghost use Rattle.inc_words.specs.Command.{Make};
ghost use Rattle.inc_words.specs.Texts.{made_line};
ghost use Rattle.inc_words.specs.declared.stop.Stop.TheVariants.{Fault as stop_fault, OutOfMemory as stop_out_of_memory};

use crate::OutOfMemory;
use crate::streams::input::read_blob;
use inc_bytes::Id;
use inc_disk::{Disk, Shelf};
use inc_io::{Failed, Name, Source};
use inc_layout::{FreshFault, FreshImage, fresh_image, fresh_unsigned};
use inc_recover::make_file;
use inc_tree::Geometry;
use inc_words::{
    CommandOutcome, Status, Stop, exists, made_line, refuse, signature_word, too_large,
};
use std::alloc::Global;

/// Makes a new file, without a signature or from the signature blob in the input.
pub fn make_new<S: Shelf, I: Source>(
    alloc: Global,
    name: &Name,
    size: u64,
    id: Id,
    unsigned: bool,
    shelf: &mut S,
    input: &mut I,
) -> Result<CommandOutcome, Stop>
    requires { NoneOut (S.out shelf.old) }
    ensures answer { IfTold (Make name.now size id unsigned) (S.contents (S.kept shelf.old)) (I.left input.old) (λ files given.
        IfOk result (λ outcome. AnswersAs (make_answer name.now size id unsigned files given) outcome (S.contents (S.kept shelf.new)))) }
    ensures others { IfLogs (S.log (S.kept shelf.old)) (S.log (S.kept shelf.new)) (AddsOnly name.now) }
    ensures moments { IfSome (given_to (Make name.now size id unsigned) (I.left input.old)) (λ given.
        IfLogs (S.log (S.kept shelf.old)) (S.log (S.kept shelf.new)) (LeavesNew name.now (new_file size id unsigned given))) }
    ensures made { status_of result ≡ 0 → IfSome (given_to (Make name.now size id unsigned) (I.left input.old)) (λ given.
        IfSome (S.log (S.kept shelf.new)) (IsMade name.now (new_file size id unsigned given))) }
    ensures input_kept { not unsigned ≡ false → KeepsInput (I.left input.old) (I.left input.new) (I.ended input.old) (I.ended input.new) (I.faults input.old) (I.faults input.new) }
    ensures took { TakesFront most_taken (I.left input.old) (I.left input.new) }
    ensures early { I.faults input.old < I.faults input.new → S.kept shelf.new ≡ S.kept shelf.old }
    ensures unless_done { status_of result ≢ 0 → status_of result ≢ 5 → S.kept shelf.new ≡ S.kept shelf.old }
    ensures words { status_of result ≢ 1 }
    ensures statuses { IfOk result (λ outcome. outcome.status.0 < 5) }
    ensures cause { HasCauseIn (Make name.now size id unsigned) (S.faults shelf.old) (S.faults shelf.new) (I.faults input.old) (I.faults input.new) result }
    ensures back { NoneOut (S.out shelf.new) }
{
    if unsigned {
        make_unsigned(alloc, name, size, id, shelf)
    } else {
        make_signed(alloc, name, size, id, shelf, input)
    }
}

/// Makes a new file from the signature blob in the input, which is read before anything is done on the shelf.
fn make_signed<S: Shelf, I: Source>(
    alloc: Global,
    name: &Name,
    size: u64,
    id: Id,
    shelf: &mut S,
    input: &mut I,
) -> Result<CommandOutcome, Stop>
    requires { NoneOut (S.out shelf.old) }
    ensures answer { IfSome (S.contents (S.kept shelf.old)) (λ files. IfSome (I.left input.old) (λ given.
        IfOk result (λ outcome. AnswersAs (make_answer name.now size id false files given) outcome (S.contents (S.kept shelf.new))))) }
    ensures others { IfLogs (S.log (S.kept shelf.old)) (S.log (S.kept shelf.new)) (AddsOnly name.now) }
    ensures moments { IfSome (I.left input.old) (λ given. IfLogs (S.log (S.kept shelf.old)) (S.log (S.kept shelf.new)) (LeavesNew name.now (fresh_of (tree_of size) id (blob_of given)))) }
    ensures made { status_of result ≡ 0 → IfSome (I.left input.old) (λ given. IfSome (S.log (S.kept shelf.new)) (IsMade name.now (fresh_of (tree_of size) id (blob_of given)))) }
    ensures took { TakesFront most_taken (I.left input.old) (I.left input.new) }
    ensures early { I.faults input.old < I.faults input.new → S.kept shelf.new ≡ S.kept shelf.old }
    ensures unless_done { status_of result ≢ 0 → status_of result ≢ 5 → S.kept shelf.new ≡ S.kept shelf.old }
    ensures words { status_of result ≢ 1 }
    ensures statuses { IfOk result (λ outcome. outcome.status.0 < 5) }
    ensures cause { HasEitherCause (S.faults shelf.old) (S.faults shelf.new) (I.faults input.old) (I.faults input.new) result }
    ensures back { NoneOut (S.out shelf.new) }
{
    let blob = read_blob(alloc, input)?;
    match fresh_image(alloc, size, id, blob.as_slice()) {
        Ok(image) => {
            let Ok(tree) = Geometry::of(size) else {
                unreachable!()
            };
            create(alloc, name, &tree, &image, shelf)
        }
        Err(FreshFault::Signature(fault)) => refuse(alloc, name, signature_word(fault)?),
        Err(FreshFault::TooLarge) => refuse(alloc, name, too_large()),
        Err(FreshFault::OutOfMemory) => Err(Stop::OutOfMemory),
    }
}

/// Makes a new file without a signature. It reads no input.
fn make_unsigned<S: Shelf>(
    alloc: Global,
    name: &Name,
    size: u64,
    id: Id,
    shelf: &mut S,
) -> Result<CommandOutcome, Stop>
    requires { NoneOut (S.out shelf.old) }
    ensures answer { IfSome (S.contents (S.kept shelf.old)) (λ files.
        IfOk result (λ outcome. AnswersAs (sized name.now (flat_of size) (unsigned_of size id) files) outcome (S.contents (S.kept shelf.new)))) }
    ensures others { IfLogs (S.log (S.kept shelf.old)) (S.log (S.kept shelf.new)) (AddsOnly name.now) }
    ensures moments { IfLogs (S.log (S.kept shelf.old)) (S.log (S.kept shelf.new)) (LeavesNew name.now (unsigned_of size id)) }
    ensures made { status_of result ≡ 0 → IfSome (S.log (S.kept shelf.new)) (IsMade name.now (unsigned_of size id)) }
    ensures unless_done { status_of result ≢ 0 → status_of result ≢ 5 → S.kept shelf.new ≡ S.kept shelf.old }
    ensures words { status_of result ≢ 1 }
    ensures statuses { IfOk result (λ outcome. outcome.status.0 < 5) }
    ensures cause { HasCauseAt stop_fault (S.faults shelf.old) (S.faults shelf.new) result }
    ensures back { NoneOut (S.out shelf.new) }
{
    match fresh_unsigned(alloc, size, id) {
        Ok(image) => {
            let Ok(tree) = Geometry::flat_of(size) else {
                unreachable!()
            };
            create(alloc, name, &tree, &image, shelf)
        }
        Err(FreshFault::TooLarge) => refuse(alloc, name, too_large()),
        Err(FreshFault::OutOfMemory) => Err(Stop::OutOfMemory),
        Err(FreshFault::Signature(_)) => unreachable!(),
    }
}

/// Makes a new file as the image says. The line is there before the file, so that no file is left without it.
fn create<S: Shelf>(
    alloc: Global,
    name: &Name,
    tree: &Geometry,
    image: &FreshImage,
    shelf: &mut S,
) -> Result<CommandOutcome, Stop>
    requires none_out { NoneOut (S.out shelf.old) }
    requires fresh { IsFreshImage (image_of image.now) }
    requires whole { length (image_of image.now) ≡ image.now.len }
    ensures answer { IfSome (S.contents (S.kept shelf.old)) (λ files. IfOk result (λ outcome.
        AnswersAs (made name.now tree.now (image_of image.now) files (get files name.now)) outcome (S.contents (S.kept shelf.new)))) }
    ensures others { IfLogs (S.log (S.kept shelf.old)) (S.log (S.kept shelf.new)) (AddsOnly name.now) }
    ensures moments { IfLogs (S.log (S.kept shelf.old)) (S.log (S.kept shelf.new)) (LeavesNew name.now (image_of image.now)) }
    ensures made { status_of result ≡ 0 → IfSome (S.log (S.kept shelf.new)) (IsMade name.now (image_of image.now)) }
    ensures unless_done { status_of result ≢ 0 → status_of result ≢ 5 → S.kept shelf.new ≡ S.kept shelf.old }
    ensures words { status_of result ≢ 1 }
    ensures statuses { IfOk result (λ outcome. outcome.status.0 < 5) }
    ensures cause { HasCauseAt stop_fault (S.faults shelf.old) (S.faults shelf.new) result }
    ensures back { NoneOut (S.out shelf.new) }
{
    let line = line_of(alloc, name, tree, image.len)?;
    match shelf.create_disk(name)? {
        Some(disk) => {
            let (made, disk) = put_file(disk, image);
            shelf.close_disk(name, disk);
            made?;
            Ok(CommandOutcome {
                status: Status::DONE,
                text: line,
            })
        }
        None => refuse(alloc, name, exists()),
    }
}

/// Writes the whole file. The disk comes back in either case.
fn put_file<D: Disk>(disk: D, image: &FreshImage) -> (Result<(), Failed>, D)
    requires empty { Now (D.states (D.kept disk)) (λ state. state ≡ settled []) }
    requires fresh { IsFreshImage (image_of image.now) }
    ensures made { OnOk result.0 (Now (D.states (D.kept result.1)) (λ state. state ≡ settled (image_of image.now))) }
    ensures moments { LeavesOnly (D.states (D.kept disk)) (D.states (D.kept result.1)) (MayBeLeft (image_of image.now)) }
    ensures cause { HasCause (D.faults disk) (D.faults result.1) result.0 }
{
    match make_file(disk, image) {
        Ok(disk) => (Ok(()), disk),
        Err((failed, disk)) => (Err(failed), disk),
    }
}

/// The line of a file that is made.
fn line_of(alloc: Global, name: &Name, tree: &Geometry, len: u64) -> Result<Vec<u8>, OutOfMemory>
    ensures line { IfOk result (λ line. line.items ≡ made_line name.now (data_blocks tree.now) (hash_blocks tree.now) len) }
{
    made_line(
        alloc,
        name.as_slice(),
        tree.data_blocks(),
        tree.hash_blocks(),
        len,
    )
}
