ghost use Rattle.std.specs.Prelude.{◌≡◌, ◌⊎◌, ◌↔◌, ◌+◌, ◌*◌, ◌++◌, ◌∷◌, ◌<◌, ◌≤◌, ◌^◌, ℕ, List, [], true, length, slice_index_or, slice_set, None, Some, IfSome, IfErr, IsSome, IsTrue, MatchResult, OnOk, OnErr};
ghost use Rattle.inc_io.specs.Causes.{HasCauseAt};
ghost use Rattle.inc_tree.specs.shape.Geometry.{data_blocks, depth, hash_blocks, path_block};
ghost use Rattle.inc_tree.specs.read_block.Path.{NamesBreak, first_break, slot_of};
ghost use Rattle.inc_entry.specs.Entry.{area_places, block_bytes, entries};
ghost use Rattle.inc_entry.specs.Stored.{is_open_class};
ghost use Rattle.inc_layout.specs.Backing.{IsBackingFile, layout_in};
ghost use Rattle.inc_layout.specs.reading.Checking.{AreKept, GivesCheck, HasTreeInside, IsKeptAt, IsKeptBelow, KnowsPath};
ghost use Rattle.inc_layout.specs.opening.Opening.{IsSoundOpened};
ghost use Rattle.inc_layout.specs.reading.StaticRead.{class_in, first_missing, static_reading};
ghost use Rattle.inc_layout.specs.declared.reading.checking.KeptBlock.{KeptBlock};
ghost use Rattle.inc_layout.specs.declared.reading.static_error.StaticError.TheVariants.{ReadFault as read_fault};
ghost use Rattle.inc_layout.specs.declared.reading.stored_error.StoredError.TheVariants.{OutOfMemory as out_of_memory, ReadFault as stored_fault};

use super::static_read::{block_place, check_path_there, root_of};
use crate::{Opened, StaticError, StoredError, read_stored};
use inc_entry::Areas;
use inc_io::Backing;
use inc_tree::{BLOCK_SIZE, Block, Broken, Digest32, slot_digest};
use std::alloc::Global;
use std::marker::Model;

/// A hash block that was read, and its number.
#[derive(Drop)]
pub struct KeptBlock {
    pub number: u32,
    pub block: Block,
}

/// The hash blocks on the path of the block that was checked last, leaf level first. Neighbours share most of it.
#[derive(Drop)]
pub struct KeptPath {
    blocks: Vec<KeptBlock>,
}

impl Model for KeptPath {
    ghost use Rattle.std.specs.Prelude.{List};
    ghost use Rattle.inc_layout.specs.declared.reading.checking.KeptBlock.{KeptBlock};

    ghost Value = { List KeptBlock };

    ghost view = { λ path. path.blocks.items };
}

impl KeptPath {
    /// No block was checked yet. It takes no memory.
    pub fn new(alloc: Global) -> KeptPath
        ensures value { result ≡ [] }
    {
        KeptPath {
            blocks: Vec::new(alloc),
        }
    }

    /// Whether the hash block with this number is kept at this level.
    fn has(&self, level: usize, number: u32) -> bool
        ensures value { IsTrue result ↔ IsKeptAt self.now level number }
    {
        level < self.blocks.len() && self.blocks[level].number == number
    }

    /// Keeps a hash block at this level, in place of the one that was kept there.
    fn keep(&mut self, level: usize, kept: KeptBlock) -> Result<(), StoredError>
        requires { level ≤ length self.old }
        ensures over { level < length self.old → OnOk result (self.new ≡ slice_set self.old level kept) }
        ensures more { level ≡ length self.old → OnOk result (self.new ≡ self.old ++ kept ∷ []) }
        ensures stays { OnErr result (self.new ≡ self.old) }
        ensures failed { IfErr result (λ error. error ≡ out_of_memory) }
    {
        if level < self.blocks.len() {
            self.blocks[level] = kept;
        } else {
            self.blocks.push(kept)?;
        }
        Ok(())
    }

    /// One of the digests of the hash block that is kept at this level.
    fn digest(&self, level: usize, slot: u32) -> Digest32
        requires there { level < length self.now }
        requires slot { slot < 128 }
        ensures value { (other : KeptBlock) → result ≡ slot_of (slice_index_or self.now level other).block slot }
    {
        slot_digest(&self.blocks[level].block, slot)
    }
}

/// Checks a data block of an opened file against the file's root. The digests are those of the opening, so of the file nothing is read but the
/// hash blocks on the block's path that weren't on the path before: over all blocks in order each hash block is read once.
pub fn check_opened<B: Backing>(
    alloc: Global,
    file: &mut B,
    opened: &Opened,
    path: &mut KeptPath,
    index: u32,
) -> Result<(), StaticError>
    requires sound { IsSoundOpened opened.now }
    requires signed { IsSome opened.now.sig }
    requires stands { IfSome (B.reads (B.kept file.old)) (λ bytes. IsBackingFile bytes opened.now) }
    requires before { IfSome (B.reads (B.kept file.old)) (λ bytes. AreKept bytes opened.now.areas path.old) }
    ensures answer { IfSome (B.reads (B.kept file.old)) (λ bytes. GivesCheck result (static_reading bytes (layout_in opened.now) index)) }
    ensures after { IfSome (B.reads (B.kept file.old)) (λ bytes. AreKept bytes opened.now.areas path.new) }
    ensures kept { B.kept file.new ≡ B.kept file.old }
    ensures cause { HasCauseAt read_fault (B.faults file.old) (B.faults file.new) result }
{
    let root = root_of(&opened.sig);
    let classes = opened.classes.as_slice();
    block_place(&opened.areas, classes, index)?;
    check_path_there(&opened.areas, classes, index)?;
    keep_path(alloc, file, &opened.areas, path, index)?;
    Ok(compare_digests(&root, opened, path, index)?)
}

/// Reads the hash blocks on the path of a data block that aren't kept yet.
fn keep_path<B: Backing>(
    alloc: Global,
    file: &mut B,
    areas: &Areas,
    path: &mut KeptPath,
    index: u32,
) -> Result<(), StoredError>
    requires here { index < data_blocks areas.now.geometry }
    requires end { areas.now.hash_at + block_bytes * hash_blocks areas.now.geometry < 2 ^ 64 }
    requires tree { IfSome (B.reads (B.kept file.old)) (λ bytes. HasTreeInside bytes areas.now) }
    requires before { IfSome (B.reads (B.kept file.old)) (λ bytes. AreKept bytes areas.now path.old) }
    ensures on { OnOk result (IsKeptBelow path.new areas.now.geometry index (depth areas.now.geometry)) }
    ensures after { IfSome (B.reads (B.kept file.old)) (λ bytes. AreKept bytes areas.now path.new) }
    ensures kept { B.kept file.new ≡ B.kept file.old }
    ensures cause { HasCauseAt stored_fault (B.faults file.old) (B.faults file.new) result }
{
    for level in 0..areas.geometry.depth() {
        let hash = areas.geometry.path_block(index, level);
        keep_level(alloc, file, areas, path, level as usize, hash)?;
    }
    Ok(())
}

/// Reads a hash block, unless it is kept at its level already.
fn keep_level<B: Backing>(
    alloc: Global,
    file: &mut B,
    areas: &Areas,
    path: &mut KeptPath,
    level: usize,
    hash: u32,
) -> Result<(), StoredError>
    requires here { hash < hash_blocks areas.now.geometry }
    requires end { areas.now.hash_at + block_bytes * hash_blocks areas.now.geometry < 2 ^ 64 }
    requires room { level ≤ length path.old }
    requires tree { IfSome (B.reads (B.kept file.old)) (λ bytes. HasTreeInside bytes areas.now) }
    requires before { IfSome (B.reads (B.kept file.old)) (λ bytes. AreKept bytes areas.now path.old) }
    ensures on { OnOk result (IsKeptAt path.new level hash) }
    ensures lower { (lower number : ℕ) → lower < level → IsKeptAt path.old lower number → IsKeptAt path.new lower number }
    ensures after { IfSome (B.reads (B.kept file.old)) (λ bytes. AreKept bytes areas.now path.new) }
    ensures kept { B.kept file.new ≡ B.kept file.old }
    ensures cause { HasCauseAt stored_fault (B.faults file.old) (B.faults file.new) result }
{
    if path.has(level, hash) {
        return Ok(());
    }
    let block = read_stored(alloc, file, areas.hash_block_at(hash), BLOCK_SIZE as u32)?;
    path.keep(
        level,
        KeptBlock {
            number: hash,
            block,
        },
    )
}

/// Compares the digests of a data block and of the hash blocks on its path, leaf level first, with those that stand above them.
fn compare_digests(
    root: &Digest32,
    opened: &Opened,
    path: &KeptPath,
    index: u32,
) -> Result<(), Broken>
    requires sound { IsSoundOpened opened.now }
    requires here { index < data_blocks opened.now.areas.geometry }
    requires there { is_open_class (class_in opened.now.classes index) ≡ true }
    requires arrived { first_missing opened.now.areas opened.now.classes index ≡ None }
    requires on { IsKeptBelow path.now opened.now.areas.geometry index (depth opened.now.areas.geometry) }
    // Of each content and path that have these digests:
    ensures answer { (content : List ℕ) (hashes : List (List ℕ)) → KnowsPath opened.now path.now index content hashes →
        MatchResult result
        (λ _. first_break root.now index content hashes ≡ None)
        (λ broken. NamesBreak root.now index content hashes broken.level broken.wanted broken.got) }
{
    let tree = &opened.areas.geometry;
    let mut got = digest_there(opened, index);
    for level in 0..tree.depth() {
        let wanted = path.digest(level as usize, tree.path_slot(index, level));
        if got != wanted {
            return Err(Broken { level, wanted, got });
        }
        got = hash_digest(opened, tree.path_block(index, level));
    }
    if got != *root {
        return Err(Broken {
            level: tree.depth(),
            wanted: *root,
            got,
        });
    }
    Ok(())
}

/// The digest of a hash block that has arrived.
fn hash_digest(opened: &Opened, hash: u32) -> Digest32
    requires sound { IsSoundOpened opened.now }
    requires here { hash < hash_blocks opened.now.areas.geometry }
    requires there { is_open_class (class_in opened.now.classes (data_blocks opened.now.areas.geometry + hash)) ≡ true }
    ensures value { slice_index_or opened.now.digests (data_blocks opened.now.areas.geometry + hash) None ≡ Some result }
{
    prove!(hash < opened.areas.geometry.hash_blocks());
    digest_there(opened, opened.areas.geometry.data_blocks() + hash)
}

/// The digest of an open block.
fn digest_there(opened: &Opened, entry: u32) -> Digest32
    requires sound { IsSoundOpened opened.now }
    requires here { entry < entries (area_places opened.now.areas) }
    requires there { is_open_class (class_in opened.now.classes entry) ≡ true }
    ensures value { slice_index_or opened.now.digests entry None ≡ Some result }
{
    opened.digests.as_slice()[entry as usize].unwrap()
}
