use super::*;
use inc_header::{Header, HeaderKind};
use inc_tree::Geometry;
use std::test::*;

/// A mapped header over a file of 16384 bytes, a block of it, and what is shown of the file there.
struct Case {
    offset: u64,
    size: u64,
    index: u32,
    shown: Option<(u32, u32)>,
}

const CASES: [Case; 5] = [
    Case {
        offset: 8192,
        size: 4096,
        index: 0,
        shown: Some((2, 4096)),
    },
    Case {
        offset: 8192,
        size: 4096,
        index: 1,
        shown: None,
    },
    Case {
        offset: 4096,
        size: 5000,
        index: 1,
        shown: Some((2, 904)),
    },
    Case {
        offset: 12288,
        size: 4096,
        index: 0,
        shown: Some((3, 4096)),
    },
    Case {
        offset: 16384,
        size: 0,
        index: 0,
        shown: None,
    },
];

fn shows(offset: u64, size: u64, original: u64, index: u32) -> Option<Option<(u32, u32)>> {
    if offset % 4096 != 0 || size > 16384 || offset > 16384 {
        return None;
    }
    let header = Header {
        kind: HeaderKind::Mapped { offset },
        size,
        id: [7; 16],
    };
    let geometry = Geometry::of(original).ok()?;
    let mapped = MappedFile::of(&header, &geometry).ok()?;
    Some(mapped.translate(index))
}

fn all_show() -> bool {
    let mut good = true;
    for case in &CASES {
        if shows(case.offset, case.size, 16384, case.index) != Some(case.shown) {
            good = false;
        }
    }
    good
}

#[test]
fn a_block_is_the_front_of_a_block_of_the_original(rt: HostRuntime) {
    assert!(rt; all_show());
}

#[test]
fn a_part_past_the_end_is_refused(rt: HostRuntime) {
    assert_eq!(rt; shows(12288, 4096, 16384, 0), Some(Some((3, 4096))));
    assert_eq!(rt; shows(12288, 4096, 16383, 0), None);
}
