// The one maker of checked blocks.
ghost use Rattle.std.specs.Prelude.{◌≡◌, ◌<◌, false, ◌∷◌, length, map, OnOk, IfOk, IfErr};
ghost use Rattle.inc_tree.specs.shape.Geometry.{data_blocks, depth};
ghost use Rattle.inc_tree.specs.read_block.Path.{IsProof, NamesBreak, block_digest};
ghost use Rattle.inc_tree.specs.read_block.Verified.{IsMadeOf, content_at};
ghost use Rattle.sha2.specs.Sha256.{sha256};

use super::{Made, Verified};
use crate::read_block::path::compare_levels;
use crate::{Block, Broken, Digest32, Geometry, Path, check_path};

/// Checks a data block and keeps it with its path. What stands in `bytes` after the block's length is put to zeros before, as the block
/// is hashed. It takes no memory.
pub fn verify(
    root: &Digest32,
    tree: &Geometry,
    index: u32,
    mut bytes: Block,
    path: Path,
) -> Result<Verified, Broken>
    requires tree { tree.now.flat ≡ false }
    requires here { index < data_blocks tree.now }
    requires full { length path ≡ depth tree.now }
    ensures made { IfOk result (λ block. IsMadeOf root.now tree.now index bytes path block) }
    ensures ok { OnOk result (IsProof root.now tree.now index (content_at tree.now index bytes) path) }
    ensures broken { IfErr result (λ broken.
        NamesBreak root.now index (content_at tree.now index bytes) path broken.level broken.wanted broken.got) }
{
    let len = tree.block_len(index);
    bytes.clear_from(len);
    check_path(root, tree, index, bytes.as_slice(), &path)?;
    Ok(Verified {
        root: *root,
        geometry: *tree,
        index,
        len,
        bytes,
        path,
        made: Made,
    })
}

/// The same where the digests are at hand, that of the block as it is hashed and then those of its path from the leaf level upwards:
/// nothing is hashed. It takes no memory.
pub fn verify_digested(
    root: &Digest32,
    tree: &Geometry,
    index: u32,
    bytes: Block,
    path: Path,
    digests: &[Digest32],
) -> Result<Verified, Broken>
    requires tree { tree.now.flat ≡ false }
    requires here { index < data_blocks tree.now }
    requires full { length path ≡ depth tree.now }
    requires digested { digests.now ≡ block_digest (content_at tree.now index bytes) ∷ map sha256 path }
    ensures made { IfOk result (λ block. IsMadeOf root.now tree.now index bytes path block) }
    ensures ok { OnOk result (IsProof root.now tree.now index (content_at tree.now index bytes) path) }
    ensures broken { IfErr result (λ broken.
        NamesBreak root.now index (content_at tree.now index bytes) path broken.level broken.wanted broken.got) }
{
    let len = tree.block_len(index);
    let mut cleared = bytes;
    cleared.clear_from(len);
    compare_levels(
        root,
        tree,
        index,
        cleared.as_slice(),
        path.as_slice(),
        digests,
    )?;
    Ok(Verified {
        root: *root,
        geometry: *tree,
        index,
        len,
        bytes: cleared,
        path,
        made: Made,
    })
}
