use super::*;
use inc_bytes::put_u32;
use inc_io::Bytes;
use std::alloc::Global;
use std::test::*;

/// The root and the blob of 4096 zero bytes.
const ROOT: [u8; 32] = [
    0xad, 0x7f, 0xac, 0xb2, 0x58, 0x6f, 0xc6, 0xe9, 0x66, 0xc0, 0x04, 0xd7, 0xd1, 0xd1, 0x6b, 0x02,
    0x4f, 0x58, 0x05, 0xff, 0x7c, 0xb4, 0x7c, 0x7a, 0x85, 0xda, 0xbd, 0x8b, 0x48, 0x89, 0x2c, 0xa7,
];

const BLOB: [u8; 57] = [
    0x02, 0x00, 0x00, 0x00, 0x2d, 0x00, 0x00, 0x00, 0x01, 0x00, 0x00, 0x00, 0x0c, 0x00, 0x00, 0x00,
    0x00, 0x20, 0x00, 0x00, 0x00, 0xad, 0x7f, 0xac, 0xb2, 0x58, 0x6f, 0xc6, 0xe9, 0x66, 0xc0, 0x04,
    0xd7, 0xd1, 0xd1, 0x6b, 0x02, 0x4f, 0x58, 0x05, 0xff, 0x7c, 0xb4, 0x7c, 0x7a, 0x85, 0xda, 0xbd,
    0x8b, 0x48, 0x89, 0x2c, 0xa7, 0x00, 0x00, 0x00, 0x00,
];

/// The blobs of an empty content, of one of two blocks and of one of 129, and their roots.
const OTHER_BLOBS: [[u8; 57]; 3] = [
    [
        0x02, 0x00, 0x00, 0x00, 0x2d, 0x00, 0x00, 0x00, 0x01, 0x00, 0x00, 0x00, 0x0c, 0x00, 0x00,
        0x00, 0x00, 0x20, 0x00, 0x00, 0x00, 0x00, 0x00, 0x00, 0x00, 0x00, 0x00, 0x00, 0x00, 0x00,
        0x00, 0x00, 0x00, 0x00, 0x00, 0x00, 0x00, 0x00, 0x00, 0x00, 0x00, 0x00, 0x00, 0x00, 0x00,
        0x00, 0x00, 0x00, 0x00, 0x00, 0x00, 0x00, 0x00, 0x00, 0x00, 0x00, 0x00,
    ],
    [
        0x02, 0x00, 0x00, 0x00, 0x2d, 0x00, 0x00, 0x00, 0x01, 0x00, 0x00, 0x00, 0x0c, 0x00, 0x00,
        0x00, 0x00, 0x20, 0x00, 0x00, 0x00, 0xdf, 0x5a, 0x2b, 0x4e, 0x4a, 0x3b, 0xd0, 0x35, 0x9c,
        0x4d, 0xe9, 0x91, 0xad, 0x79, 0x24, 0x1e, 0xc1, 0x29, 0x72, 0xb8, 0xf9, 0xf4, 0x72, 0x92,
        0x53, 0x4c, 0xe7, 0x9d, 0x10, 0x7a, 0xbb, 0x76, 0x00, 0x00, 0x00, 0x00,
    ],
    [
        0x02, 0x00, 0x00, 0x00, 0x2d, 0x00, 0x00, 0x00, 0x01, 0x00, 0x00, 0x00, 0x0c, 0x00, 0x00,
        0x00, 0x00, 0x20, 0x00, 0x00, 0x00, 0x00, 0xa6, 0x42, 0x94, 0x4e, 0x36, 0x6a, 0x3f, 0x1e,
        0x5f, 0x0f, 0x4f, 0x82, 0x5e, 0x6a, 0x2b, 0xdf, 0x7c, 0x2e, 0x7c, 0x41, 0x63, 0x63, 0x36,
        0x99, 0xc1, 0x34, 0xde, 0xa1, 0x6b, 0x7b, 0x60, 0x00, 0x00, 0x00, 0x00,
    ],
];

const OTHER_ROOTS: [[u8; 32]; 3] = [
    [
        0x00, 0x00, 0x00, 0x00, 0x00, 0x00, 0x00, 0x00, 0x00, 0x00, 0x00, 0x00, 0x00, 0x00, 0x00,
        0x00, 0x00, 0x00, 0x00, 0x00, 0x00, 0x00, 0x00, 0x00, 0x00, 0x00, 0x00, 0x00, 0x00, 0x00,
        0x00, 0x00,
    ],
    [
        0xdf, 0x5a, 0x2b, 0x4e, 0x4a, 0x3b, 0xd0, 0x35, 0x9c, 0x4d, 0xe9, 0x91, 0xad, 0x79, 0x24,
        0x1e, 0xc1, 0x29, 0x72, 0xb8, 0xf9, 0xf4, 0x72, 0x92, 0x53, 0x4c, 0xe7, 0x9d, 0x10, 0x7a,
        0xbb, 0x76,
    ],
    [
        0x00, 0xa6, 0x42, 0x94, 0x4e, 0x36, 0x6a, 0x3f, 0x1e, 0x5f, 0x0f, 0x4f, 0x82, 0x5e, 0x6a,
        0x2b, 0xdf, 0x7c, 0x2e, 0x7c, 0x41, 0x63, 0x63, 0x36, 0x99, 0xc1, 0x34, 0xde, 0xa1, 0x6b,
        0x7b, 0x60,
    ],
];

fn root() -> [u8; 32] {
    ROOT
}

fn blob_of_zeros() -> [u8; 57] {
    BLOB
}

/// The blob of this place in the table.
fn other_blob(place: usize) -> [u8; 57] {
    if place < 3 { OTHER_BLOBS[place] } else { BLOB }
}

/// The root of the blob of this place in the table.
fn other_root(place: usize) -> [u8; 32] {
    if place < 3 { OTHER_ROOTS[place] } else { ROOT }
}

/// A blob with this hash info section and an empty signing info.
fn with_info(alloc: Global, info: &[u8], size: u8) -> Result<Vec<u8>, SigFault> {
    let mut blob = Vec::new(alloc);
    blob.extend_from_slice(&[2, 0, 0, 0, size, 0, 0, 0])?;
    blob.extend_from_slice(info)?;
    blob.extend_from_slice(&[0, 0, 0, 0])?;
    Ok(blob)
}

#[test]
fn a_root_is_read(rt: HostRuntime) -> Result<(), Fail> {
    let s = parse(rt.alloc(), &blob_of_zeros())?;
    assert_eq!(rt; s.root, root());
    assert_eq!(rt; s.signing.len(), 0);
    for place in 0..3 {
        let other = parse(rt.alloc(), &other_blob(place))?;
        assert_eq!(rt; other.root, other_root(place));
        assert_eq!(rt; other.signing.len(), 0);
    }
    Ok(())
}

#[test]
fn signing_info_is_kept_byte_for_byte(rt: HostRuntime) -> Result<(), Fail> {
    let mut blob = blob_of_zeros().to_vec(rt.alloc())?;
    blob.truncate(53);
    blob.extend_from_slice(&[3, 0, 0, 0, 9, 0, 255])?;
    let s = parse(rt.alloc(), &blob)?;
    assert_eq!(rt; s.root, root());
    assert_eq!(rt; s.signing.as_slice(), [9, 0, 255].as_slice());
    Ok(())
}

#[test]
fn a_byte_changed_gives_the_fault_of_its_field(rt: HostRuntime) {
    let table = [
        (0, 3, SigFault::BadVersion),
        (3, 1, SigFault::BadVersion),
        (4, 46, SigFault::Short),
        (8, 2, SigFault::BadAlgorithm),
        (11, 1, SigFault::BadAlgorithm),
        (12, 13, SigFault::BadBlockSize),
        (13, 1, SigFault::Salted),
        (16, 1, SigFault::Salted),
        (17, 31, SigFault::BadRootSize),
        (20, 1, SigFault::BadRootSize),
        (53, 1, SigFault::Short),
    ];
    for (at, byte, fault) in table {
        let mut blob = blob_of_zeros();
        if at < 57 {
            blob[at] = byte;
        }
        assert_eq!(rt; parse(rt.alloc(), &blob).err(), Some(fault));
    }
}

#[test]
fn a_blob_that_ends_within_a_field_is_short(rt: HostRuntime) -> Result<(), Fail> {
    for len in [0, 3, 4, 7, 8, 52, 56] {
        if len <= 57 {
            assert_eq!(rt;
                parse(rt.alloc(), &blob_of_zeros()[..len]).err(),
                Some(SigFault::Short)
            );
        }
    }
    for size in [3, 4, 8, 12, 44] {
        if size <= 44 {
            let info = &blob_of_zeros()[8..8 + size as usize];
            let blob = with_info(rt.alloc(), info, size)?;
            assert_eq!(rt; parse(rt.alloc(), &blob).err(), Some(SigFault::Short));
        }
    }
    Ok(())
}

#[test]
fn bytes_after_an_end_are_refused(rt: HostRuntime) -> Result<(), Fail> {
    let mut longer = [0; 58];
    longer[..57].copy_from_slice(&blob_of_zeros());
    assert_eq!(rt; parse(rt.alloc(), &longer).err(), Some(SigFault::Trailing));
    let in_section = with_info(rt.alloc(), &blob_of_zeros()[8..54], 46)?;
    assert_eq!(rt;
        parse(rt.alloc(), &in_section).err(),
        Some(SigFault::Trailing)
    );
    Ok(())
}

#[test]
fn a_salt_is_refused_by_name(rt: HostRuntime) -> Result<(), Fail> {
    let mut info = [1, 0, 0, 0, 12, 4, 0, 0, 0, 7, 7, 7, 7, 32, 0, 0, 0].to_vec(rt.alloc())?;
    info.extend_from_slice(&root())?;
    let blob = with_info(rt.alloc(), &info, 49)?;
    assert_eq!(rt; parse(rt.alloc(), &blob).err(), Some(SigFault::Salted));
    Ok(())
}

#[test]
fn a_blob_has_at_most_8096_bytes(rt: HostRuntime) -> Result<(), Fail> {
    let mut blob = blob_of_zeros().to_vec(rt.alloc())?;
    for _ in 57..8096u32 {
        blob.push(7)?;
    }
    assert_eq!(rt; blob.len(), 8096);
    put_u32(&mut blob, 53, 8039);
    let s = parse(rt.alloc(), &blob)?;
    assert_eq!(rt; s.root, root());
    assert_eq!(rt; s.signing.len(), 8039);
    blob.push(7)?;
    assert_eq!(rt; parse(rt.alloc(), &blob).err(), Some(SigFault::TooLong));
    Ok(())
}

#[test]
fn what_is_printed_has_57_bytes_and_the_signing_info(rt: HostRuntime) -> Result<(), Fail> {
    let empty = SigInfo {
        root: root(),
        signing: Bytes::of(rt.alloc(), &[])?,
    };
    assert_eq!(rt;
        print(rt.alloc(), &empty)?.as_slice(),
        blob_of_zeros().as_slice()
    );
    let signed = SigInfo {
        root: root(),
        signing: Bytes::of(rt.alloc(), &[9, 0, 255])?,
    };
    let mut wanted = blob_of_zeros().to_vec(rt.alloc())?;
    wanted.truncate(53);
    wanted.extend_from_slice(&[3, 0, 0, 0, 9, 0, 255])?;
    assert_eq!(rt; print(rt.alloc(), &signed)?.as_slice(), wanted.as_slice());
    Ok(())
}
