use super::*;
use std::test::*;

const COUNTED: [u8; 9] = [1, 2, 3, 4, 5, 6, 7, 8, 9];

#[test]
fn a_number_stands_with_its_least_byte_first(rt: HostRuntime) {
    assert_eq!(rt; get_u16(&COUNTED, 7), Some(0x0908));
    assert_eq!(rt; get_u32(&COUNTED, 1), Some(0x0504_0302));
    assert_eq!(rt; get_u48(&COUNTED, 2), Some(0x0807_0605_0403));
    assert_eq!(rt; get_u64(&COUNTED, 0), Some(0x0807_0605_0403_0201));
    assert_eq!(rt; u16_at(&COUNTED, 7), 0x0908);
}

#[test]
fn a_place_without_all_its_bytes_has_no_number(rt: HostRuntime) {
    assert_eq!(rt; get_u16(&COUNTED, 8), None);
    assert_eq!(rt; get_u32(&COUNTED, usize::MAX - 3), None);
    assert_eq!(rt; get_u48(&COUNTED, 4), None);
    assert_eq!(rt; get_u64(&COUNTED, usize::MAX - 7), None);
}

#[test]
fn a_number_that_is_put_is_got_and_the_other_bytes_stay(rt: HostRuntime) {
    let mut bytes = COUNTED;
    put_u16(&mut bytes, 0, 0xffee);
    put_u32(&mut bytes, 2, 0x0403_0201);
    put_u48(&mut bytes, 3, 0xffff_ffff_ffff);
    assert_eq!(rt; bytes, [0xee, 0xff, 1, 0xff, 0xff, 0xff, 0xff, 0xff, 0xff]);
    put_u64(&mut bytes, 1, u64::MAX - 1);
    assert_eq!(rt; get_u64(&bytes, 1), Some(u64::MAX - 1));
}

#[test]
fn numbers_are_appended(rt: HostRuntime) -> Result<(), Fail> {
    let mut bytes = Vec::new(rt.alloc());
    push_u16(&mut bytes, 0x0201)?;
    push_u32(&mut bytes, 0x0605_0403)?;
    push_u64(&mut bytes, 9)?;
    assert_eq!(rt; bytes.len(), 14);
    assert_eq!(rt; get_u32(&bytes, 2), Some(0x0605_0403));
    Ok(())
}

#[test]
fn a_decimal_number_is_read_where_it_fits(rt: HostRuntime) {
    assert_eq!(rt; decimal_u32(b"4294967295"), Some(u32::MAX));
    assert_eq!(rt; decimal_u32(b"4294967296"), None);
    assert_eq!(rt; decimal_u64(b"18446744073709551615"), Some(u64::MAX));
    assert_eq!(rt; decimal_u64(b"000000000000000000001"), None);
    assert_eq!(rt; decimal_u64(b"1a"), None);
}

#[test]
fn a_list_keeps_its_order(rt: HostRuntime) -> Result<(), Fail> {
    let first = Span { at: 1, len: 4 };
    let second = Span { at: 2, len: 4 };
    let mut spans = SpanList::new(rt.alloc());
    assert!(rt; spans.is_empty());
    spans.push(first)?;
    spans.push(second)?;
    let copy = SpanList::of(rt.alloc(), spans.as_slice())?;
    assert_eq!(rt; spans.remove(0), first);
    assert_eq!(rt; spans.into_vec().as_slice(), [second].as_slice());
    assert_eq!(rt; copy.clone()?.as_slice(), [first, second].as_slice());
    assert_eq!(rt; copy.len(), 2);
    Ok(())
}
