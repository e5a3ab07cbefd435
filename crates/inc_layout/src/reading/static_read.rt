ghost use Rattle.std.specs.Prelude.{◌≡◌, ◌≢◌, ◌+◌, ◌*◌, ◌<◌, ◌≤◌, ◌^◌, true, false, not, is_some, length, IfOk, IfSome, IsSome, OnOk, Some, None, Err};
ghost use Rattle.inc_io.specs.Causes.{HasCauseAt};
ghost use Rattle.inc_tree.specs.shape.Geometry.{block_len, data_blocks, depth, hash_blocks};
ghost use Rattle.inc_tree.specs.read_block.Shown.{shown_content};
ghost use Rattle.inc_tree.specs.read_block.Unproved.{unproved_content};
ghost use Rattle.inc_tree.specs.read_block.Verified.{content_of};
ghost use Rattle.inc_entry.specs.Entry.{area_places, block_bytes, entries, tree_span};
ghost use Rattle.inc_entry.specs.Spans.{IsInside};
ghost use Rattle.inc_entry.specs.Stored.{is_open_class};
ghost use Rattle.inc_layout.specs.Backing.{IsBackingFile, IsLaidOut, layout_in, sig_root};
ghost use Rattle.inc_layout.specs.opening.Opening.{IsSoundLayout, IsSoundOpened};
ghost use Rattle.inc_layout.specs.reading.StaticRead.{AreClassesOf, GivesReading, IsBlockIn, IsBlockOf, IsReadable, IsShownIn, IsShownOf, IsUnprovedIn, MeansReading, block_place, class_in, first_missing, missing_error, path_in, block_reading, static_reading};
ghost use Rattle.inc_layout.specs.declared.reading.static_error.StaticError.TheVariants.{ReadFault as read_fault};
ghost use Rattle.inc_layout.specs.declared.reading.stored_error.StoredError.TheVariants.{ReadFault as stored_fault};

use crate::opened::sig_root;
use crate::{Layout, Opened, StaticError, StoredError, read_stored};
use inc_entry::{Areas, Class};
use inc_io::Backing;
use inc_signature::SigInfo;
use inc_tree::{BLOCK_SIZE, Digest32, Path, Shown, Unproved, Verified, verify};
use std::alloc::Global;

/// Reads a data block of a signed file, with the path that proves it. Of the file it reads the block and each hash block of its path once.
pub fn read_laid<B: Backing>(
    alloc: Global,
    file: &mut B,
    layout: &Layout,
    index: u32,
) -> Result<Verified, StaticError>
    requires sound { IsSoundLayout layout.now }
    requires signed { IsSome layout.now.sig }
    requires stands { IfSome (B.reads (B.kept file.old)) (λ bytes. IsLaidOut bytes layout.now) }
    // The answer is computed so.
    ensures answer { IfSome (B.reads (B.kept file.old)) (λ bytes. GivesReading content_of result (static_reading bytes layout.now index)) }
    // And this is what it means.
    ensures meaning { IfSome (B.reads (B.kept file.old)) (λ bytes. MeansReading bytes layout.now index (static_reading bytes layout.now index)) }
    ensures block { IfOk result (λ block. IsBlockOf layout.now index block) }
    ensures kept { B.kept file.new ≡ B.kept file.old }
    ensures cause { HasCauseAt read_fault (B.faults file.old) (B.faults file.new) result }
{
    let root = root_of(&layout.sig);
    read_proved(
        alloc,
        file,
        &root,
        &layout.areas,
        layout.classes.as_slice(),
        index,
    )
}

/// The same with an opened file, of which no digest is looked at.
pub fn read_opened<B: Backing>(
    alloc: Global,
    file: &mut B,
    opened: &Opened,
    index: u32,
) -> Result<Verified, StaticError>
    requires sound { IsSoundOpened opened.now }
    requires signed { IsSome opened.now.sig }
    requires stands { IfSome (B.reads (B.kept file.old)) (λ bytes. IsBackingFile bytes opened.now) }
    ensures answer { IfSome (B.reads (B.kept file.old)) (λ bytes. GivesReading content_of result (static_reading bytes (layout_in opened.now) index)) }
    ensures block { IfOk result (λ block. IsBlockOf (layout_in opened.now) index block) }
    ensures kept { B.kept file.new ≡ B.kept file.old }
    ensures cause { HasCauseAt read_fault (B.faults file.old) (B.faults file.new) result }
{
    let root = root_of(&opened.sig);
    read_proved(
        alloc,
        file,
        &root,
        &opened.areas,
        opened.classes.as_slice(),
        index,
    )
}

/// Reads a data block of any file: with the path that proves it where the file is signed, and else marked as unproved.
pub fn show_laid<B: Backing>(
    alloc: Global,
    file: &mut B,
    layout: &Layout,
    index: u32,
) -> Result<Shown, StaticError>
    requires sound { IsSoundLayout layout.now }
    requires stands { IfSome (B.reads (B.kept file.old)) (λ bytes. IsLaidOut bytes layout.now) }
    ensures answer { IfSome (B.reads (B.kept file.old)) (λ bytes. GivesReading shown_content result (static_reading bytes layout.now index)) }
    ensures meaning { IfSome (B.reads (B.kept file.old)) (λ bytes. MeansReading bytes layout.now index (static_reading bytes layout.now index)) }
    // It is proved exactly where the file is signed.
    ensures shown { IfOk result (λ shown. IsShownOf layout.now index shown) }
    ensures kept { B.kept file.new ≡ B.kept file.old }
    ensures cause { HasCauseAt read_fault (B.faults file.old) (B.faults file.new) result }
{
    show(
        alloc,
        file,
        &layout.sig,
        &layout.areas,
        layout.classes.as_slice(),
        index,
    )
}

/// The same with an opened file, of which no digest is looked at.
pub fn show_opened<B: Backing>(
    alloc: Global,
    file: &mut B,
    opened: &Opened,
    index: u32,
) -> Result<Shown, StaticError>
    requires sound { IsSoundOpened opened.now }
    requires stands { IfSome (B.reads (B.kept file.old)) (λ bytes. IsBackingFile bytes opened.now) }
    ensures answer { IfSome (B.reads (B.kept file.old)) (λ bytes. GivesReading shown_content result (static_reading bytes (layout_in opened.now) index)) }
    ensures shown { IfOk result (λ shown. IsShownOf (layout_in opened.now) index shown) }
    ensures kept { B.kept file.new ≡ B.kept file.old }
    ensures cause { HasCauseAt read_fault (B.faults file.old) (B.faults file.new) result }
{
    show(
        alloc,
        file,
        &opened.sig,
        &opened.areas,
        opened.classes.as_slice(),
        index,
    )
}

/// Reads a data block: proved where the file is signed, and else as it is stored.
fn show<B: Backing>(
    alloc: Global,
    file: &mut B,
    sig: &Option<SigInfo>,
    areas: &Areas,
    classes: &[Class],
    index: u32,
) -> Result<Shown, StaticError>
    requires readable { IsReadable areas.now classes.now }
    requires shape { areas.now.geometry.flat ≡ not (is_some sig.now) }
    requires stands { IfSome (B.reads (B.kept file.old)) (λ bytes. AreClassesOf bytes areas.now classes.now) }
    ensures answer { IfSome (B.reads (B.kept file.old)) (λ bytes. GivesReading shown_content result (block_reading bytes (sig_root sig.now) areas.now classes.now index)) }
    ensures shown { IfOk result (λ shown. IsShownIn (sig_root sig.now) areas.now index shown) }
    ensures kept { B.kept file.new ≡ B.kept file.old }
    ensures cause { HasCauseAt read_fault (B.faults file.old) (B.faults file.new) result }
{
    match sig {
        Some(sig) => Ok(Shown::Proved(read_proved(alloc, file, &sig.root, areas, classes, index)?)),
        None => Ok(Shown::Unproved(read_unproved(alloc, file, areas, classes, index)?)),
    }
}

/// Reads a data block and its path, and checks them against the root.
fn read_proved<B: Backing>(
    alloc: Global,
    file: &mut B,
    root: &Digest32,
    areas: &Areas,
    classes: &[Class],
    index: u32,
) -> Result<Verified, StaticError>
    requires readable { IsReadable areas.now classes.now }
    requires tree { areas.now.geometry.flat ≡ false }
    requires stands { IfSome (B.reads (B.kept file.old)) (λ bytes. AreClassesOf bytes areas.now classes.now) }
    ensures answer { IfSome (B.reads (B.kept file.old)) (λ bytes. GivesReading content_of result (block_reading bytes (Some root.now) areas.now classes.now index)) }
    ensures block { IfOk result (λ block. IsBlockIn (Some root.now) areas.now index block) }
    ensures kept { B.kept file.new ≡ B.kept file.old }
    ensures cause { HasCauseAt read_fault (B.faults file.old) (B.faults file.new) result }
{
    let place = block_place(areas, classes, index)?;
    check_path_there(areas, classes, index)?;
    let block = read_stored(alloc, file, place, areas.geometry.block_len(index))?;
    let path = read_path(alloc, file, areas, index)?;
    Ok(verify(root, &areas.geometry, index, block, path)?)
}

/// Reads a data block of a file without a root.
fn read_unproved<B: Backing>(
    alloc: Global,
    file: &mut B,
    areas: &Areas,
    classes: &[Class],
    index: u32,
) -> Result<Unproved, StaticError>
    requires readable { IsReadable areas.now classes.now }
    requires flat { areas.now.geometry.flat ≡ true }
    requires stands { IfSome (B.reads (B.kept file.old)) (λ bytes. AreClassesOf bytes areas.now classes.now) }
    ensures answer { IfSome (B.reads (B.kept file.old)) (λ bytes. GivesReading unproved_content result (block_reading bytes None areas.now classes.now index)) }
    ensures block { IfOk result (λ block. IsUnprovedIn None areas.now index block) }
    ensures kept { B.kept file.new ≡ B.kept file.old }
    ensures cause { HasCauseAt read_fault (B.faults file.old) (B.faults file.new) result }
{
    let place = block_place(areas, classes, index)?;
    let block = read_stored(alloc, file, place, areas.geometry.block_len(index))?;
    Ok(Unproved::of(&areas.geometry, index, block))
}

/// Where a data block is stored, if it is.
#[tactic(auto, unfolding(crate::specs::reading::StaticRead::block_place))]
pub fn block_place(areas: &Areas, classes: &[Class], index: u32) -> Result<u64, StaticError>
    requires readable { IsReadable areas.now classes.now }
    ensures value { result ≡ block_place areas.now classes.now index }
    ensures here { OnOk result (index < data_blocks areas.now.geometry) }
    ensures judged { result ≢ Err read_fault }
{
    if index >= areas.geometry.data_blocks() {
        return Err(StaticError::OutOfRange);
    }
    match classes[index as usize] {
        Class::OpenAt { place, .. } => Ok(place),
        Class::Damaged => Err(StaticError::Damaged),
        Class::Compressed => Err(StaticError::Compressed),
        Class::Closed => Err(StaticError::Absent),
    }
}

/// Looks for the lowest hash block on a path that hasn't arrived.
pub fn check_path_there(areas: &Areas, classes: &[Class], index: u32) -> Result<(), StaticError>
    requires readable { IsReadable areas.now classes.now }
    requires here { index < data_blocks areas.now.geometry }
    ensures value { result ≡ missing_error areas.now index (first_missing areas.now classes.now index) }
    ensures judged { result ≢ Err read_fault }
{
    let tree = &areas.geometry;
    for level in 0..tree.depth() {
        let hash = tree.path_block(index, level);
        if !is_there(areas, classes, hash) {
            return Err(StaticError::PathAbsent { hash });
        }
    }
    Ok(())
}

/// Whether a hash block has arrived.
fn is_there(areas: &Areas, classes: &[Class], hash: u32) -> bool
    requires readable { IsReadable areas.now classes.now }
    requires here { hash < hash_blocks areas.now.geometry }
    ensures value { result ≡ is_open_class (class_in classes.now (data_blocks areas.now.geometry + hash)) }
{
    prove!(hash < areas.geometry.hash_blocks());
    let index = areas.geometry.data_blocks() + hash;
    classes[index as usize].is_open()
}

/// Reads the hash blocks on the path of a data block, leaf level first.
fn read_path<B: Backing>(
    alloc: Global,
    file: &mut B,
    areas: &Areas,
    index: u32,
) -> Result<Path, StoredError>
    requires here { index < data_blocks areas.now.geometry }
    requires end { areas.now.hash_at + block_bytes * hash_blocks areas.now.geometry < 2 ^ 64 }
    ensures value { IfSome (B.reads (B.kept file.old)) (λ bytes. IsInside (length bytes) (tree_span (area_places areas.now)) →
        IfOk result (λ path. path ≡ path_in bytes areas.now index)) }
    ensures full { IfOk result (λ path. length path ≡ depth areas.now.geometry) }
    ensures kept { B.kept file.new ≡ B.kept file.old }
    ensures cause { HasCauseAt stored_fault (B.faults file.old) (B.faults file.new) result }
{
    let mut blocks = Vec::new(alloc);
    for level in 0..areas.geometry.depth() {
        let hash = areas.geometry.path_block(index, level);
        blocks.push(read_stored(alloc, file, areas.hash_block_at(hash), BLOCK_SIZE as u32)?)?;
    }
    Ok(Path::from_vec(blocks))
}

/// The root of a signed file.
pub fn root_of(sig: &Option<SigInfo>) -> Digest32
    requires { IsSome sig.now }
    ensures value { sig_root sig.now ≡ Some result }
{
    sig_root(sig).unwrap()
}
