// The check of a Merkle path, from a data block up to the root.
ghost use Rattle.std.specs.Prelude.{◌≡◌, ℕ, ◌+◌, ◌*◌, ◌<◌, ◌≤◌, false, [], ◌++◌, length, slice_index_or, take, drop, Some, None, OnOk, IfErr, MatchResult};
ghost use Rattle.inc_tree.specs.shape.Geometry.{data_blocks, depth};
ghost use Rattle.inc_tree.specs.read_block.Path.{block_at, padded, slot_of, IsProof, NamesBreak, digest_below, first_break};
ghost use Rattle.sha2.specs.Sha256.{sha256};

use crate::digest::digest_whole;
use crate::geometry::MOST_LEVELS;
use crate::{BLOCK_SIZE, Block, DIGEST_SIZE, Digest32, Geometry, Path, digest_block, digest_four};

/// Where a path breaks first, from the leaf level upwards. At level `depth` it is the comparison with the root.
#[derive(Clone, Copy, Debug, PartialEq, Eq)]
pub struct Broken {
    pub level: u32,
    /// The digest that stands in the level's hash block, or the root.
    pub wanted: Digest32,
    /// The digest of the block one level below.
    pub got: Digest32,
}

/// Checks that a data block is the one that the root vouches for. `bytes` is hashed as filled up with zeros to 4096. It takes no memory.
pub fn check_path(
    root: &Digest32,
    tree: &Geometry,
    index: u32,
    bytes: &[u8],
    path: &Path,
) -> Result<(), Broken>
    requires tree { tree.now.flat ≡ false }
    requires here { index < data_blocks tree.now }
    requires one_block { length bytes.now ≤ 4096 }
    requires full { length path.now ≡ depth tree.now }
    ensures ok { OnOk result (IsProof root.now tree.now index bytes.now path.now) }
    ensures broken { IfErr result (λ broken. NamesBreak root.now index bytes.now path.now broken.level broken.wanted broken.got) }
    ensures computed { MatchResult result
        (λ _. first_break root.now index bytes.now path.now ≡ None)
        (λ broken. first_break root.now index bytes.now path.now ≡ Some broken.level) }
{
    // There are few levels, so that their number fits.
    let _depth = tree.depth();
    let digests = level_digests(bytes, path.as_slice());
    compare_levels(root, tree, index, bytes, path.as_slice(), &digests)
}

// Compares the digests of a path's levels, which are at hand, with what stands for them: slots of the hash blocks, and at last the root.
// The data block itself isn't looked at: it is here so that the clauses can name it.
pub(super) fn compare_levels(
    root: &Digest32,
    tree: &Geometry,
    index: u32,
    _bytes: &[u8],
    path: &[Block],
    digests: &[Digest32],
) -> Result<(), Broken>
    requires full { length path.now ≡ depth tree.now }
    requires count { length path.now < length digests.now }
    requires digested { (level : ℕ) → level ≤ length path.now → slice_index_or digests.now level [] ≡ digest_below _bytes.now path.now level }
    ensures ok { OnOk result (IsProof root.now tree.now index _bytes.now path.now) }
    ensures broken { IfErr result (λ broken. NamesBreak root.now index _bytes.now path.now broken.level broken.wanted broken.got) }
    ensures computed { MatchResult result
        (λ _. first_break root.now index _bytes.now path.now ≡ None)
        (λ broken. first_break root.now index _bytes.now path.now ≡ Some broken.level) }
{
    // There are few levels, so that their number fits.
    let _depth = tree.depth();
    let mut level: u32 = 0;
    for block in path {
        let wanted = slot_digest(block, tree.path_slot(index, level));
        let got = digests[level as usize];
        if got != wanted {
            return Err(Broken { level, wanted, got });
        }
        level += 1;
    }
    let got = digests[level as usize];
    if got != *root {
        return Err(Broken {
            level,
            wanted: *root,
            got,
        });
    }
    Ok(())
}

// The digests that the levels of a path have to prove, the root's too: they are independent, so that four at a time are found side by side.
fn level_digests(bytes: &[u8], path: &[Block]) -> [Digest32; MOST_LEVELS + 1]
    requires one_block { length bytes.now ≤ 4096 }
    requires low { length path.now ≤ 4 }
    ensures each { (level : ℕ) → level ≤ length path.now → slice_index_or result level [] ≡ digest_below bytes.now path.now level }
{
    if path.is_empty() {
        let digest = digest_block(bytes);
        return [digest; MOST_LEVELS + 1];
    }
    let leaf = padded_leaf(bytes);
    let [first, second, third, fourth] = digest_four(
        &leaf,
        block_or(path, 0, &leaf),
        block_or(path, 1, &leaf),
        block_or(path, 2, &leaf),
    );
    [first, second, third, fourth, fourth_digest(path)]
}

fn padded_leaf(bytes: &[u8]) -> [u8; BLOCK_SIZE]
    requires { length bytes.now ≤ 4096 }
    ensures value { result ≡ padded bytes.now }
{
    let mut leaf = [0; BLOCK_SIZE];
    put_front(&mut leaf, bytes);
    leaf
}

fn put_front(block: &mut [u8], bytes: &[u8])
    requires { length bytes.now ≤ length block.old }
    ensures value { block.new ≡ bytes.now ++ drop (length bytes.now) block.old }
{
    block[..bytes.len()].copy_from_slice(bytes);
}

// The digest of the fourth hash block, if the path has one.
fn fourth_digest(path: &[Block]) -> Digest32
    ensures value { 3 < length path.now → result ≡ sha256 (block_at path.now 3) }
{
    match path.get(3) {
        Some(block) => digest_whole(block.as_slice()),
        None => [0; DIGEST_SIZE],
    }
}

// The hash block of a level, or other bytes above the last level.
fn block_or<'a>(path: &'a [Block], level: usize, other: &'a [u8]) -> &'a [u8]
    requires whole { length other.now ≡ 4096 }
    ensures value { result.now ≡ slice_index_or path.now level other.now }
    ensures len { length result.now ≡ 4096 }
{
    match path.get(level) {
        Some(block) => block.as_slice(),
        None => other,
    }
}

/// The digest in a slot of a hash block.
pub fn slot_digest(block: &Block, slot: u32) -> Digest32
    requires { slot < 128 }
    ensures value { result ≡ slot_of block.now slot }
{
    let at = slot as usize * DIGEST_SIZE;
    let mut digest = [0; DIGEST_SIZE];
    digest.copy_from_slice(&block.as_slice()[at..at + DIGEST_SIZE]);
    digest
}
