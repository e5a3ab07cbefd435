use super::*;
use inc_bytes::{Span, SpanList, put_u16, put_u48};
use inc_tree::Geometry;
use std::alloc::Global;
use std::process::Abort;
use std::test::Fail;

/// Where things lie in a file for 5000 bytes (two data blocks, the last of 904 bytes, and one hash block) whose signature blob has 57
/// bytes: the map takes the bytes 250 to 280, the tree 4096 to 8192. The file goes on to 13192.
fn areas(alloc: Global) -> Result<Areas, Fail> {
    let spans = [
        Span { at: 0, len: 56 },
        Span { at: 56, len: 35 },
        Span { at: 91, len: 47 },
        Span { at: 138, len: 55 },
        Span { at: 193, len: 57 },
    ];
    Ok(Areas {
        len: 13192,
        spans: SpanList::of(alloc, &spans)?,
        map_at: 250,
        hash_at: 4096,
        geometry: Geometry::of(5000).ok().ok_or("a size")?,
    })
}

/// An entry's ten bytes.
fn entry(offset: u32, size: u16, flags: u16) -> [u8; 10] {
    let mut bytes = [0; 10];
    put_u48(&mut bytes, 0, offset as u64);
    put_u16(&mut bytes, 6, size);
    put_u16(&mut bytes, 8, flags);
    bytes
}

/// The class of an entry in such a file, for an index that it has.
fn judged(rt: &impl Abort, areas: &Areas, index: u32, offset: u32, size: u16, flags: u16) -> Class {
    let entries = areas.geometry.data_blocks() + areas.geometry.hash_blocks();
    assert!(rt; index < entries);
    class(&entry(offset, size, flags), areas, index)
}

/// A block that is there.
fn open(place: u64, len: u32) -> Class {
    Class::OpenAt { place, len }
}

#[test]
fn an_open_entry_names_a_block_apart_from_everything_else(rt: HostRuntime) -> Result<(), Fail> {
    let areas = areas(rt.alloc())?;
    assert_eq!(rt; judged(&rt, &areas, 0, 8192, 4096, 0), open(8192, 4096));
    // Between map and tree, and one byte into either.
    assert_eq!(rt; judged(&rt, &areas, 1, 280, 904, 0), open(280, 904));
    assert_eq!(rt; judged(&rt, &areas, 1, 279, 904, 0), Class::Damaged);
    assert_eq!(rt; judged(&rt, &areas, 1, 3193, 904, 0), Class::Damaged);
    // Over the last record.
    assert_eq!(rt; judged(&rt, &areas, 1, 192, 904, 0), Class::Damaged);
    // A hash block has one place.
    assert_eq!(rt; judged(&rt, &areas, 2, 4096, 4096, 0), open(4096, 4096));
    assert_eq!(rt; judged(&rt, &areas, 2, 8192, 4096, 0), Class::Damaged);
    Ok(())
}

#[test]
fn a_size_is_a_whole_blocks_or_the_blocks_own(rt: HostRuntime) -> Result<(), Fail> {
    let areas = areas(rt.alloc())?;
    // The last block's own length, up to the file's last byte and one past it.
    assert_eq!(rt; judged(&rt, &areas, 1, 12288, 904, 0), open(12288, 904));
    assert_eq!(rt; judged(&rt, &areas, 1, 12289, 904, 0), Class::Damaged);
    assert_eq!(rt; judged(&rt, &areas, 0, 12288, 904, 0), Class::Damaged);
    // A gate that was torn: the high byte of the size is there, and makes no valid size.
    assert_eq!(rt; judged(&rt, &areas, 0, 8192, 0x0500, 0), Class::Closed);
    assert_eq!(rt; judged(&rt, &areas, 0, 0, 0, 0), Class::Closed);
    Ok(())
}

#[test]
fn the_low_three_flags_name_a_compression(rt: HostRuntime) -> Result<(), Fail> {
    let areas = areas(rt.alloc())?;
    assert_eq!(rt; judged(&rt, &areas, 0, 8192, 900, 4), Class::Compressed);
    assert_eq!(rt; judged(&rt, &areas, 0, 0, 900, 1), Class::Damaged);
    assert_eq!(rt; judged(&rt, &areas, 0, 8192, 4096, 8), Class::Damaged);
    Ok(())
}

/// Whether an entry of the second block names one past the end of such a file.
fn past(rt: &impl Abort, areas: &Areas, offset: u32, size: u16, flags: u16) -> bool {
    let entries = areas.geometry.data_blocks() + areas.geometry.hash_blocks();
    assert!(rt; 1 < entries);
    is_past_end(&entry(offset, size, flags), areas, 1)
}

#[test]
fn an_entry_past_the_end_is_told_apart(rt: HostRuntime) -> Result<(), Fail> {
    let areas = areas(rt.alloc())?;
    assert!(rt; !past(&rt, &areas, 12288, 904, 0));
    assert!(rt; past(&rt, &areas, 12289, 904, 0));
    assert!(rt; !past(&rt, &areas, 12289, 900, 0));
    assert!(rt; !past(&rt, &areas, 12289, 904, 1));
    Ok(())
}

#[test]
fn an_entry_is_written_in_two_parts(rt: HostRuntime) -> Result<(), Fail> {
    let mut bytes = [0; 10];
    bytes[..6].copy_from_slice(&offset_bytes(260));
    assert_eq!(rt; bytes, entry(260, 0, 0));
    bytes[7] = gate_byte();
    // As a file of one block has it whose content follows its map.
    assert_eq!(rt; bytes, [0x04, 0x01, 0, 0, 0, 0, 0, 0x10, 0, 0]);
    assert_eq!(rt; offset_bytes(0x0605_0403_0201), [1, 2, 3, 4, 5, 6]);
    Ok(())
}

#[test]
fn areas_lie_where_the_layout_says(rt: HostRuntime) -> Result<(), Fail> {
    let areas = areas(rt.alloc())?;
    assert_eq!(rt; areas.map_span(), Span { at: 250, len: 30 });
    assert_eq!(rt;
        areas.tree_span(),
        Span {
            at: 4096,
            len: 4096
        }
    );
    let entries = areas.geometry.data_blocks() + areas.geometry.hash_blocks();
    assert!(rt; entries == 3 && areas.map_at == 250);
    assert_eq!(rt; entry_at(&areas, 2), 270);
    Ok(())
}

#[test]
fn empty_ranges_meet_nothing(rt: HostRuntime) {
    let spans = [Span { at: 10, len: 0 }, Span { at: 20, len: 5 }];
    assert!(rt; is_clear(&spans, 5, 10));
    assert!(rt; is_clear(&spans, 22, 0));
    assert!(rt; is_clear(&spans, 15, 5));
    assert!(rt; !is_clear(&spans, 15, 6));
    assert!(rt; !is_clear(&spans, 24, 1));
    assert!(rt; is_clear(&spans, u64::MAX, u64::MAX));
}
