use super::*;
use inc_bytes::{Span, put_u16, put_u32, put_u64};
use inc_io::{Bytes, MemFile};
use std::alloc::Global;
use std::test::Fail;

const MANY: u32 = 10_000;

/// Writes what a record begins with, where the bytes have room for it.
fn put_record(bytes: &mut [u8], at: usize, kind: u8, size: u16, next: u64) {
    if at > bytes.len() || bytes.len() - at < 23 {
        return;
    }
    bytes[at] = kind;
    put_u16(bytes, at + 1, size);
    put_u64(bytes, at + 7, next);
}

/// The records of a fresh file of 5000 bytes whose signature blob has 57 bytes: a block map at 56, a signature at 91 and a status at
/// 138, with other numbers of written blocks than zero.
fn fresh() -> [u8; 193] {
    let mut bytes = [0; 193];
    put_record(&mut bytes, 56, 1, 35, 91);
    put_u64(&mut bytes, 79, 250);
    put_u32(&mut bytes, 87, 3);
    put_record(&mut bytes, 91, 3, 47, 138);
    put_u32(&mut bytes, 114, 57);
    put_u64(&mut bytes, 118, 193);
    put_u32(&mut bytes, 126, 4096);
    put_u64(&mut bytes, 130, 4096);
    put_record(&mut bytes, 138, 4, 55, 0);
    put_u32(&mut bytes, 161, 2);
    put_u32(&mut bytes, 165, 1);
    bytes
}

/// Walks along the chain of a file with these bytes, whose device fails past so many calls.
fn walked(
    alloc: Global,
    bytes: &[u8],
    first: u64,
    need_map: bool,
    calls: u32,
) -> Result<Result<Records, ChainFault>, Fail> {
    let mut file = MemFile::new(Bytes::of(alloc, bytes)?, calls);
    Ok(walk(alloc, &mut file, bytes.len() as u64, first, need_map))
}

#[test]
fn the_records_of_a_fresh_file_are_read(rt: HostRuntime) -> Result<(), Fail> {
    let records = walked(rt.alloc(), &fresh(), 56, true, MANY)?
        .ok()
        .ok_or("a chain")?;
    assert_eq!(rt;
        records.map,
        Some(MapRecord {
            base: 250,
            count: 3
        })
    );
    assert_eq!(rt;
        records.signature,
        Some(SigRecord {
            sig_size: 57,
            sig_at: 193,
            tree_size: 4096,
            tree_at: 4096
        })
    );
    assert_eq!(rt;
        records.status,
        Some(StatusRecord {
            at: 161,
            data_written: 2,
            hash_written: 1
        })
    );
    assert_eq!(rt;
        records.spans.as_slice(),
        [
            Span { at: 56, len: 35 },
            Span { at: 91, len: 47 },
            Span { at: 138, len: 55 }
        ]
        .as_slice()
    );
    assert_eq!(rt; records.last, 138);
    Ok(())
}

#[test]
fn each_test_is_met_at_its_boundary(rt: HostRuntime) -> Result<(), Fail> {
    let alloc = rt.alloc();
    // The fresh file's chain with one record that begins otherwise.
    for (at, kind, size, next, fault) in [
        (56, 1, 35, 91, None),
        (56, 1, 36, 91, Some(ChainFault::BadSize { at: 56 })),
        (91, 3, 46, 138, Some(ChainFault::BadSize { at: 91 })),
        (138, 4, 54, 0, Some(ChainFault::BadSize { at: 138 })),
        (138, 9, 22, 0, Some(ChainFault::BadSize { at: 138 })),
        (138, 9, 23, 0, None),
        (138, 9, 55, 0, None),
        (138, 9, 56, 0, Some(ChainFault::Outside { at: 138 })),
        (91, 1, 35, 138, Some(ChainFault::TwoMaps { at: 91 })),
        (138, 3, 47, 0, Some(ChainFault::TwoSignatures { at: 138 })),
        (
            91,
            3,
            47,
            137,
            Some(ChainFault::NotRising { at: 91, next: 137 }),
        ),
        (
            91,
            3,
            47,
            91,
            Some(ChainFault::NotRising { at: 91, next: 91 }),
        ),
        (
            138,
            4,
            55,
            192,
            Some(ChainFault::NotRising { at: 138, next: 192 }),
        ),
        (138, 4, 55, 193, Some(ChainFault::Outside { at: 193 })),
        (
            138,
            4,
            55,
            u64::MAX,
            Some(ChainFault::Outside { at: u64::MAX }),
        ),
        (56, 2, 35, 91, Some(ChainFault::NoMap)),
    ] {
        let mut bytes = fresh();
        put_record(&mut bytes, at, kind, size, next);
        assert_eq!(rt; walked(alloc, &bytes, 56, true, MANY)?.err(), fault);
    }
    Ok(())
}

/// The first bytes of some, or all of them.
fn front(bytes: &[u8], len: usize) -> &[u8] {
    &bytes[..len.min(bytes.len())]
}

#[test]
fn a_record_ends_inside_the_file(rt: HostRuntime) -> Result<(), Fail> {
    let alloc = rt.alloc();
    let bytes = fresh();
    assert_eq!(rt;
        walked(alloc, front(&bytes, 192), 56, true, MANY)?.err(),
        Some(ChainFault::Outside { at: 138 })
    );
    assert_eq!(rt;
        walked(alloc, front(&bytes, 78), 56, true, MANY)?.err(),
        Some(ChainFault::Outside { at: 56 })
    );
    assert_eq!(rt;
        walked(alloc, &bytes, u64::MAX, true, MANY)?.err(),
        Some(ChainFault::Outside { at: u64::MAX })
    );
    Ok(())
}

#[test]
fn a_map_is_missed_only_where_it_is_needed(rt: HostRuntime) -> Result<(), Fail> {
    let alloc = rt.alloc();
    assert_eq!(rt;
        walked(alloc, &[], 0, true, MANY)?.err(),
        Some(ChainFault::NoMap)
    );
    let records = walked(alloc, &[], 0, false, MANY)?
        .ok()
        .ok_or("an empty chain")?;
    assert!(rt; records.spans.is_empty());
    assert_eq!(rt; records.last, 0);
    assert_eq!(rt;
        walked(alloc, &fresh(), 91, true, MANY)?.err(),
        Some(ChainFault::NoMap)
    );
    assert_eq!(rt; walked(alloc, &fresh(), 91, false, MANY)?.err(), None);
    Ok(())
}

#[test]
fn unknown_types_and_a_second_status_are_passed_over(rt: HostRuntime) -> Result<(), Fail> {
    let mut bytes = [0; 133];
    put_record(&mut bytes, 0x10, 4, 55, 71);
    put_u32(&mut bytes, 39, 7);
    put_record(&mut bytes, 71, 4, 55, 0);
    put_u32(&mut bytes, 94, 8);
    let records = walked(rt.alloc(), &bytes, 0x10, false, MANY)?
        .ok()
        .ok_or("a chain")?;
    assert_eq!(rt;
        records.status,
        Some(StatusRecord {
            at: 39,
            data_written: 7,
            hash_written: 0
        })
    );
    assert_eq!(rt; records.last, 71);
    put_record(&mut bytes, 0x10, 5, 55, 71);
    let records = walked(rt.alloc(), &bytes, 0x10, false, MANY)?
        .ok()
        .ok_or("a chain")?;
    assert_eq!(rt;
        records.status,
        Some(StatusRecord {
            at: 94,
            data_written: 8,
            hash_written: 0
        })
    );
    Ok(())
}

/// Writes so many bare records of an unknown type behind each other, the first at 8.
fn put_bare_records(bytes: &mut [u8], count: u16) {
    for number in 0..count {
        let at = 8 + 23 * number as usize;
        let next = if number + 1 < count {
            at as u64 + 23
        } else {
            0
        };
        put_record(bytes, at, 9, 23, next);
    }
}

#[test]
fn a_chain_has_at_most_1024_records(rt: HostRuntime) -> Result<(), Fail> {
    let alloc = rt.alloc();
    for (count, fault) in [(1024, None), (1025, Some(ChainFault::TooMany))] {
        let mut bytes = vec![in alloc; 0u8; 8 + 23 * 1025]?;
        put_bare_records(&mut bytes, count);
        assert_eq!(rt; walked(alloc, &bytes, 8, false, MANY)?.err(), fault);
    }
    Ok(())
}

#[test]
fn each_of_its_reads_may_fail(rt: HostRuntime) -> Result<(), Fail> {
    let alloc = rt.alloc();
    for calls in 0..6 {
        assert_eq!(rt;
            walked(alloc, &fresh(), 56, true, calls)?.err(),
            Some(ChainFault::ReadFault)
        );
    }
    assert_eq!(rt; walked(alloc, &fresh(), 56, true, 6)?.err(), None);
    Ok(())
}
