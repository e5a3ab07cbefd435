ghost use Rattle.std.specs.Prelude.{◌≡◌, ◌≤◌, None, Some, length, IfOk};
ghost use Rattle.inc_tree.specs.shape.Geometry.{tree_of};
ghost use Rattle.inc_signature.specs.Signature.{signature_of};
ghost use Rattle.inc_layout.specs.Fresh.{GivesSignature, GivesSize, HasNoBlob, IsFreshFile, IsFreshImage, fresh_fault, fresh_length, fresh_of, image_of, unsigned_length, unsigned_of};
ghost use Rattle.inc_layout.specs.declared.fresh.FreshFault.TheVariants.{OutOfMemory as out_of_memory};

use inc_bytes::Id;
use inc_io::Bytes;
use inc_signature::{SigFault, parse};
use inc_tree::Geometry;
use std::alloc::{AllocError, Global};

mod image;
mod record;

use image::{signed_image, unsigned_image};

/// A new file: what it begins with, and its length. Behind the front it has zeros alone.
#[derive(Drop)]
pub struct FreshImage {
    /// Header, records and signature blob.
    pub front: Bytes,
    /// The file's length in bytes.
    pub len: u64,
}

/// Why there is no fresh image, in the order in which it is tested.
#[derive(Clone, Copy, Debug, PartialEq, Eq)]
pub enum FreshFault {
    /// The signature blob can't be read.
    Signature(SigFault),
    /// The content would have over 2^34 bytes.
    TooLarge,
    OutOfMemory,
}

impl From<AllocError> for FreshFault {
    ghost from_gives = { λ _ fault. fault ≡ out_of_memory };

    fn from(_: AllocError) -> Self {
        FreshFault::OutOfMemory
    }
}

impl From<SigFault> for FreshFault {
    ghost from_gives = { λ inner fault. fault ≡ fresh_fault inner };

    fn from(inner: SigFault) -> Self {
        match inner {
            SigFault::OutOfMemory => FreshFault::OutOfMemory,
            _ => FreshFault::Signature(inner),
        }
    }
}

/// A new signed file for a content of so many bytes, none of whose blocks has come.
///
/// `sig` is the file's signature blob. It is judged before the size.
pub fn fresh_image(alloc: Global, size: u64, id: Id, sig: &[u8]) -> Result<FreshImage, FreshFault>
    // These are its bytes.
    ensures value { IfOk result (λ image. image_of image ≡ fresh_of (tree_of size) id sig.now) }
    ensures sized { IfOk result (λ image. image.len ≡ fresh_length (tree_of size) (length sig.now)) }
    // The front ends inside the file.
    ensures fits { IfOk result (λ image. length image.front ≤ image.len) }
    // In words it is a backing file with each block to come.
    ensures stands { IfOk result (λ image. IsFreshFile size id (Some sig.now) (image_of image)) }
    ensures fresh { IfOk result (λ image. IsFreshImage (image_of image)) }
    ensures signature { GivesSignature result (signature_of sig.now) }
    ensures large { GivesSize result size }
{
    let _ = parse(alloc, sig)?;
    let Ok(tree) = Geometry::of(size) else {
        return Err(FreshFault::TooLarge);
    };
    Ok(signed_image(alloc, &tree, id, sig)?)
}

/// A new unsigned file for a content of so many bytes, none of whose blocks has come.
pub fn fresh_unsigned(alloc: Global, size: u64, id: Id) -> Result<FreshImage, FreshFault>
    // These are its bytes.
    ensures value { IfOk result (λ image. image_of image ≡ unsigned_of size id) }
    ensures sized { IfOk result (λ image. image.len ≡ unsigned_length size) }
    // The front ends inside the file.
    ensures fits { IfOk result (λ image. length image.front ≤ image.len) }
    // In words it is a backing file without a signature, with each block to come.
    ensures stands { IfOk result (λ image. IsFreshFile size id None (image_of image)) }
    ensures fresh { IfOk result (λ image. IsFreshImage (image_of image)) }
    ensures unsigned { HasNoBlob result }
    ensures large { GivesSize result size }
{
    let Ok(flat) = Geometry::flat_of(size) else {
        return Err(FreshFault::TooLarge);
    };
    Ok(unsigned_image(alloc, &flat, id)?)
}
