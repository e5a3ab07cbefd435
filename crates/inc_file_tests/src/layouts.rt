ghost use Rattle.std.specs.Prelude.{None};

use inc_entry::Class;
use inc_io::{Backing, Bytes, Failed, MemFile, copy_part};
use inc_layout::{FreshFault, FreshImage, fresh_image, fresh_unsigned, open_shape, show_laid};
use inc_samples::{ID, blob_of_two};
use inc_signature::{SigFault, SigInfo, print};
use sha2::{Digest, Sha256};
use std::alloc::Global;
use std::test::Fail;

/// The root over 129 blocks.
const MANY_ROOT: [u8; 32] = [
    0x00, 0xa6, 0x42, 0x94, 0x4e, 0x36, 0x6a, 0x3f, 0x1e, 0x5f, 0x0f, 0x4f, 0x82, 0x5e, 0x6a, 0x2b,
    0xdf, 0x7c, 0x2e, 0x7c, 0x41, 0x63, 0x63, 0x36, 0x99, 0xc1, 0x34, 0xde, 0xa1, 0x6b, 0x7b, 0x60,
];

/// SHA-256 of the fresh files of 0 and 528384 bytes, by a program outside this repository.
const EMPTY: [u8; 32] = [
    0x3f, 0xf8, 0x5d, 0xc5, 0xa5, 0xde, 0xa2, 0x8d, 0x25, 0x46, 0x7c, 0x44, 0x7b, 0xda, 0x9a, 0xdd,
    0xef, 0x66, 0xde, 0x10, 0x08, 0x13, 0x69, 0xb6, 0xd0, 0x1c, 0x89, 0xb1, 0xb4, 0xe2, 0x5a, 0x2f,
];

const MANY_BLOCKS: [u8; 32] = [
    0x9b, 0xc8, 0xb4, 0xf5, 0x9d, 0x48, 0xaa, 0x4c, 0x8b, 0xbb, 0x3f, 0x89, 0x50, 0xfd, 0x59, 0x6a,
    0x68, 0xe5, 0x27, 0xfb, 0x23, 0x73, 0xc2, 0xee, 0x55, 0xc9, 0xb5, 0x8a, 0x3b, 0x4f, 0x02, 0x4c,
];

/// SHA-256 of the fresh unsigned file of 5000 bytes, by a program outside this repository.
const TWO_UNSIGNED: [u8; 32] = [
    0x3e, 0xdd, 0xe1, 0xd5, 0xdd, 0x9e, 0xa0, 0xe3, 0x8e, 0x8a, 0x35, 0x5f, 0x67, 0xdd, 0x7b, 0xcd,
    0xde, 0x8f, 0x51, 0xaf, 0x7b, 0x4d, 0xfc, 0xc2, 0xa2, 0x75, 0x96, 0xe9, 0x8b, 0xc9, 0x35, 0x44,
];

/// The signature blob of a root, without signing info.
fn blob(alloc: Global, root: [u8; 32]) -> Result<Bytes, Fail> {
    let signing = Bytes::of(alloc, &[])?;
    Ok(print(alloc, &SigInfo { root, signing })?)
}

/// The greatest size of a content.
const MOST: u64 = 1 << 34;

/// Length and SHA-256 of a file that is told by its front.
fn digest_of(alloc: Global, image: &FreshImage) -> Result<(u64, [u8; 32]), Fail> {
    let front = image.front.as_slice();
    let rest = image.len.saturating_sub(front.len() as u64);
    let mut hasher = Sha256::new();
    hasher.update(front);
    hasher.update(vec![in alloc; 0u8; rest as usize]?.as_slice());
    Ok((image.len, hasher.finalize()))
}

/// Length and SHA-256 of a fresh signed file.
fn signed(alloc: Global, size: u64, root: [u8; 32]) -> Result<(u64, [u8; 32]), Fail> {
    let sig = blob(alloc, root)?;
    let image = fresh_image(alloc, size, ID, sig.as_slice())
        .ok()
        .ok_or("an image")?;
    digest_of(alloc, &image)
}

#[test]
fn a_fresh_file_is_the_outside_one_byte_for_byte(rt: HostRuntime) -> Result<(), Fail> {
    assert_eq!(rt; signed(rt.alloc(), 0, [0; 32])?, (250, EMPTY));
    let many = signed(rt.alloc(), 528384, MANY_ROOT)?;
    assert_eq!(rt; many, (16384, MANY_BLOCKS));
    Ok(())
}

#[test]
fn a_fresh_unsigned_file_has_its_map_behind_two_records(rt: HostRuntime) -> Result<(), Fail> {
    let image = fresh_unsigned(rt.alloc(), 5000, ID).ok().ok_or("an image")?;
    assert_eq!(rt; digest_of(rt.alloc(), &image)?, (166, TWO_UNSIGNED));
    Ok(())
}

#[test]
fn a_file_of_16_gib_is_told_by_its_front(rt: HostRuntime) -> Result<(), Fail> {
    let image = fresh_image(rt.alloc(), MOST, ID, blob_of_two())
        .ok()
        .ok_or("an image")?;
    assert_eq!(rt; (image.front.len(), image.len), (250, 177553408));
    let image = fresh_unsigned(rt.alloc(), MOST, ID).ok().ok_or("an image")?;
    assert_eq!(rt; (image.front.len(), image.len), (146, 41943186));
    assert!(rt; fresh_unsigned(rt.alloc(), MOST + 1, ID).err() == Some(FreshFault::TooLarge));
    Ok(())
}

#[test]
fn the_signature_is_judged_before_the_size(rt: HostRuntime) -> Result<(), Fail> {
    let good = blob_of_two();
    let mut bad = good.to_vec(rt.alloc())?;
    bad.push(0)?;
    assert!(rt;
        fresh_image(rt.alloc(), MOST + 1, ID, &bad).err()
            == Some(FreshFault::Signature(SigFault::Trailing))
    );
    assert!(rt; fresh_image(rt.alloc(), MOST + 1, ID, good).err() == Some(FreshFault::TooLarge));
    Ok(())
}

/// An unsigned file of 5000 bytes whose second block is stored at its end, on a device that fails past so many calls.
fn half_filled(alloc: Global, calls: u32) -> Result<MemFile, Fail> {
    let image = fresh_unsigned(alloc, 5000, ID).ok().ok_or("an image")?;
    let mut bytes = image.front.as_slice().to_vec(alloc)?;
    bytes.extend_from_slice(&[0; 10])?;
    bytes.extend_from_slice(&[166, 0, 0, 0, 0, 0, 0, 0x10, 0, 0])?;
    bytes.resize(166 + 4096, 7)?;
    Ok(MemFile::new(Bytes::from_vec(bytes), calls))
}

/// What a read of a block of it shows: its own bytes in number, and whether it is proved.
fn shown(alloc: Global, index: u32, calls: u32) -> Result<Option<(u32, bool)>, Fail> {
    let mut file = half_filled(alloc, calls)?;
    let Ok(layout) = open_shape(alloc, &mut file) else {
        return Ok(None);
    };
    let Ok(block) = show_laid(alloc, &mut file, &layout, index) else {
        return Ok(None);
    };
    Ok(Some((block.len(), block.is_proved())))
}

#[test]
fn one_block_is_read_without_the_others(rt: HostRuntime) -> Result<(), Fail> {
    // Length, header, two reads for the map record and two for the status record, the map, and the block.
    assert_eq!(rt; shown(rt.alloc(), 1, 8)?, Some((904, false)));
    assert_eq!(rt; shown(rt.alloc(), 1, 7)?, None);
    assert_eq!(rt; shown(rt.alloc(), 0, 8)?, None);
    Ok(())
}

/// The front of an unsigned file, which says that it has a map of two entries, and has none. It tells nothing.
#[derive(Drop)]
struct CutFile(Bytes);

impl Backing for CutFile {
    type Kept = ();

    ghost kept = { λ _. tt };

    ghost reads = { λ _. None };

    ghost faults = { λ _. 0 };

    fn fault_count(&self) -> u64 {
        0
    }

    fn len(&mut self) -> Result<u64, Failed> {
        Ok(166)
    }

    fn read_at(&mut self, at: u64, room: &mut [u8]) -> Result<usize, Failed> {
        Ok(copy_part(self.0.as_slice(), at, room))
    }
}

#[test]
fn what_a_file_does_not_have_is_read_as_zeros(rt: HostRuntime) -> Result<(), Fail> {
    let alloc = rt.alloc();
    let image = fresh_unsigned(alloc, 5000, ID).ok().ok_or("an image")?;
    let mut file = CutFile(image.front);
    let layout = open_shape(alloc, &mut file).ok().ok_or("a layout")?;
    assert_eq!(rt; layout.classes.as_slice(), [Class::Closed; 2].as_slice());
    Ok(())
}
