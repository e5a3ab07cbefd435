use super::*;
use inc_bytes::put_u64;
use std::test::*;

/// A plain header as the format's table gives it: first record at 56, size 4096, id 00112233..ff.
const PLAIN: [u8; 56] = [
    0x49, 0x4e, 0x43, 0x46, 0x53, 0, 0, 0, 1, 0, 0, 0, 0, 0, 0, 0, 56, 0, 0, 0x10, 0, 0, 0, 0, 56,
    0, 0, 0, 0, 0, 0, 0, 0, 0x10, 0, 0, 0, 0, 0, 0, 0x00, 0x11, 0x22, 0x33, 0x44, 0x55, 0x66, 0x77,
    0x88, 0x99, 0xaa, 0xbb, 0xcc, 0xdd, 0xee, 0xff,
];

const ID: [u8; 16] = [
    0x00, 0x11, 0x22, 0x33, 0x44, 0x55, 0x66, 0x77, 0x88, 0x99, 0xaa, 0xbb, 0xcc, 0xdd, 0xee, 0xff,
];

/// The plain header with another byte at a place.
fn with_byte(at: usize, byte: u8) -> [u8; 56] {
    let mut bytes = PLAIN;
    if at < 56 {
        bytes[at] = byte;
    }
    bytes
}

/// A header with flags 2, this offset and this size.
fn mapped(offset: u64, size: u64) -> [u8; 56] {
    let mut bytes = with_byte(20, 2);
    put_u64(&mut bytes, 24, offset);
    put_u64(&mut bytes, 32, size);
    bytes
}

#[test]
fn a_plain_header_is_read_whatever_follows_it(rt: HostRuntime) {
    let header = Header {
        kind: HeaderKind::Plain { first: 56 },
        size: 4096,
        id: ID,
    };
    assert_eq!(rt; read_header(&PLAIN), Ok(header));
    let mut longer = [7; 60];
    longer[..56].copy_from_slice(&PLAIN);
    assert_eq!(rt; read_header(&longer), Ok(header));
}

#[test]
fn a_mapped_header_ends_below_the_greatest_number(rt: HostRuntime) {
    let header = Header {
        kind: HeaderKind::Mapped { offset: 8192 },
        size: 4096,
        id: ID,
    };
    assert_eq!(rt; read_header(&mapped(8192, 4096)), Ok(header));
    let last = u64::MAX - 4095;
    let to_the_end = Header {
        kind: HeaderKind::Mapped { offset: last },
        size: 4095,
        id: ID,
    };
    assert_eq!(rt; read_header(&mapped(last, 4095)), Ok(to_the_end));
    assert_eq!(rt;
        read_header(&mapped(last, 4096)),
        Err(HeaderFault::BadMapping)
    );
    assert_eq!(rt;
        read_header(&mapped(100, 4096)),
        Err(HeaderFault::BadMapping)
    );
}

#[test]
fn each_fault_is_the_first_test_that_fails(rt: HostRuntime) {
    assert_eq!(rt; read_header(&[]), Err(HeaderFault::Short));
    assert_eq!(rt; read_header(&PLAIN[..55]), Err(HeaderFault::Short));
    let table = [
        (0, 0x48, HeaderFault::BadMagic),
        (7, 1, HeaderFault::BadMagic),
        (8, 2, HeaderFault::BadVersion),
        (15, 1, HeaderFault::BadVersion),
        (16, 57, HeaderFault::BadHeaderSize),
        (17, 1, HeaderFault::BadHeaderSize),
        (18, 1, HeaderFault::BadBlockSize),
        (19, 0x20, HeaderFault::BadBlockSize),
        (20, 1, HeaderFault::BadFlags),
        (20, 3, HeaderFault::BadFlags),
        (23, 1, HeaderFault::BadFlags),
        (20, 2, HeaderFault::BadMapping),
    ];
    for (at, byte, fault) in table {
        assert_eq!(rt; read_header(&with_byte(at, byte)), Err(fault));
    }
    let mut many = with_byte(20, 1);
    many[8] = 2;
    many[16] = 57;
    assert_eq!(rt; read_header(&many), Err(HeaderFault::BadVersion));
}

#[test]
fn a_header_is_written_as_the_table_says(rt: HostRuntime) {
    let plain = Header {
        kind: HeaderKind::Plain { first: 56 },
        size: 4096,
        id: ID,
    };
    assert_eq!(rt; write_header(&plain), PLAIN);
    let part = Header {
        kind: HeaderKind::Mapped { offset: 8192 },
        size: 5000,
        id: ID,
    };
    assert_eq!(rt; write_header(&part), mapped(8192, 5000));
}
