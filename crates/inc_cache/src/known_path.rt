// The path of a data block, with the hash blocks of it that are kept.
ghost use Rattle.std.specs.Prelude.{◌≡◌, ◌+◌, ◌<◌, ◌≤◌, false, [], ◌∷◌, List, ℕ, Option, length, map, take, vec_capacity, vec_len, IfOk, IfErr, OnOk};
ghost use Rattle.std.specs.Vec.Iter.{into_iter_items};
ghost use Rattle.inc_tree.specs.shape.Geometry.{data_blocks, depth};
ghost use Rattle.inc_tree.specs.read_block.Path.{IsProof, NamesBreak, block_digest};
ghost use Rattle.inc_tree.specs.read_block.Verified.{IsMadeOf, content_at};
ghost use Rattle.inc_cache.specs.Known.{missing_levels, path_with};
ghost use Rattle.sha2.specs.Sha256.{sha256};

use crate::kept_block::KeptBlock;
use inc_tree::{Block, Broken, DIGEST_SIZE, Digest32, Geometry, Path, Verified, verify_digested};
use std::marker::Model;
use std::vec::IntoIter;

/// No path has more hash blocks.
const MOST_LEVELS: usize = 4;

/// A copy of what is kept of a data block's path, with the memory for the rest of it.
#[derive(Drop)]
pub struct KnownPath {
    root: Digest32,
    geometry: Geometry,
    index: u32,
    numbers: Vec<u32>,
    /// What is known of each level, leaf level first.
    levels: Vec<Option<KeptBlock>>,
    /// Empty, with room for the whole path.
    path: Vec<Block>,
}

impl Model for KnownPath {
    ghost use Rattle.std.specs.Prelude.{vec_capacity};
    ghost use Rattle.inc_cache.specs.Known.{KnownBlocks, HoldsKnownPath};

    ghost Value = { KnownBlocks };

    ghost view = { λ p. record { root = p.root; shape = p.geometry; index = p.index; numbers = p.numbers.items; levels = p.levels.items } };

    ghost invariant = { λ p. HoldsKnownPath p.geometry p.index p.levels.items p.path.items (vec_capacity p.path) };
}

impl KnownPath {
    /// What is known of the path of a block, with room for its other blocks.
    pub(crate) fn of(
        root: Digest32,
        geometry: Geometry,
        index: u32,
        numbers: Vec<u32>,
        levels: Vec<Option<KeptBlock>>,
        room: Vec<Block>,
    ) -> KnownPath
        requires signed { geometry.flat ≡ false }
        requires here { index < data_blocks geometry }
        requires full { length levels.items ≡ depth geometry }
        requires empty { room.items ≡ [] }
        requires roomy { length levels.items ≤ vec_capacity room }
        ensures root { result.root ≡ root }
        ensures shape { result.shape ≡ geometry }
        ensures index { result.index ≡ index }
        ensures numbers { result.numbers ≡ numbers.items }
        ensures levels { result.levels ≡ levels.items }
    {
        KnownPath {
            root,
            geometry,
            index,
            numbers,
            levels,
            path: room,
        }
    }

    /// The numbers of the known blocks, leaf level first.
    pub fn numbers(&self) -> &[u32]
        ensures value { result.now ≡ self.now.numbers }
    {
        &self.numbers
    }

    /// How many blocks of the path aren't known.
    #[tactic(auto, using(crate::proofs::KnownLemmas::missing_is_count))]
    pub fn missing(&self) -> usize
        ensures value { result ≡ missing_levels self.now.levels }
    {
        self.levels.iter().filter(|known| known.is_none()).count()
    }

    /// Checks the block, whose digest is at hand, with the blocks of its path that aren't known, leaf level first. The known ones stand at
    /// their levels and aren't hashed again. It takes no memory.
    pub fn check(self, bytes: Block, digest: Digest32, handed: Path) -> Result<Verified, Broken>
        requires hashed { digest ≡ block_digest (content_at self.shape self.index bytes) }
        requires handed { length handed ≡ missing_levels self.levels }
        ensures full { length (path_with self.levels handed) ≡ depth self.shape }
        ensures made { IfOk result (λ block. IsMadeOf self.root self.shape self.index bytes (path_with self.levels handed) block) }
        ensures ok { OnOk result (IsProof self.root self.shape self.index (content_at self.shape self.index bytes) (path_with self.levels handed)) }
        ensures broken { IfErr result (λ broken.
            NamesBreak self.root self.index (content_at self.shape self.index bytes) (path_with self.levels handed) broken.level broken.wanted broken.got) }
    {
        let KnownPath {
            root,
            geometry,
            index,
            levels,
            path,
            ..
        } = self;
        let _depth = geometry.depth();
        let mut digests = [digest; MOST_LEVELS + 1];
        let path = fill_in(levels, handed.into_vec(), path, &mut digests[1..]);
        let count = path.len() + 1;
        verify_digested(
            &root,
            &geometry,
            index,
            bytes,
            Path::from_vec(path),
            &digests[..count],
        )
    }
}

// Puts each level's block into the path and its digest beside it: the known ones, and at the other levels the handed ones in order.
fn fill_in(
    levels: Vec<Option<KeptBlock>>,
    handed: Vec<Block>,
    path: Vec<Block>,
    digests: &mut [Digest32],
) -> Vec<Block>
    requires count { length handed.items ≡ missing_levels levels.items }
    requires empty { path.items ≡ [] }
    requires roomy { length levels.items ≤ vec_capacity path }
    requires digests { length levels.items ≤ length digests.old }
    ensures path { result.items ≡ path_with levels.items handed.items }
    ensures len { vec_len result ≡ length levels.items }
    ensures digests { take (vec_len result) digests.new ≡ map sha256 result.items }
{
    let mut path = path;
    let mut levels = levels.into_iter();
    let mut handed = handed.into_iter();
    let mut level = 0;
    while let Some(known) = levels.next() {
        let kept = next_block(known, &mut handed);
        digests[level] = kept.digest();
        level += 1;
        path.push_reserved(kept.into_block());
    }
    path
}

// The known block of a level, or the next of those that were handed.
fn next_block(known: Option<KeptBlock>, handed: &mut IntoIter<Block>) -> KeptBlock
    requires { missing_levels (known ∷ []) ≤ length (into_iter_items handed.old) }
    ensures placed { (levels : List (Option (List ℕ))) →
        path_with (known ∷ levels) (into_iter_items handed.old) ≡ result ∷ path_with levels (into_iter_items handed.new) }
    ensures left { (levels : List (Option (List ℕ))) → missing_levels (known ∷ levels) ≡ length (into_iter_items handed.old)
        → missing_levels levels ≡ length (into_iter_items handed.new) }
{
    match known {
        Some(kept) => kept,
        None => KeptBlock::hashed(handed.next().unwrap()),
    }
}
