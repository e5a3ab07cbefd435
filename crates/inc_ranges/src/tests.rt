use super::*;
use std::test::*;

/// The ranges of a question, or nothing where it was refused.
fn told(
    rt: &HostRuntime,
    present: &[bool],
    start: u32,
    end: u32,
    room: u32,
) -> Result<(Vec<(u32, u32)>, u32, bool), RangeFault> {
    let Ranges { list, next, more } = filled(rt.alloc(), present, start, end, room)?;
    Ok((list.into_vec(), next, more))
}

/// The indices 0, 1, 3 and 5 of 6 are filled.
const PRESENT: [bool; 6] = [true, true, false, true, false, true];

#[test]
fn the_first_runs_come_and_what_is_left_is_told(rt: HostRuntime) -> Result<(), Fail> {
    let (list, next, more) = told(&rt, &PRESENT, 0, 6, 2)?;
    assert_eq!(rt; list.as_slice(), [(0, 2), (3, 4)].as_slice());
    assert_eq!(rt; (next, more), (5, true));
    let (list, next, more) = told(&rt, &PRESENT, 0, 6, 8)?;
    assert_eq!(rt; list.as_slice(), [(0, 2), (3, 4), (5, 6)].as_slice());
    assert_eq!(rt; (next, more), (6, false));
    Ok(())
}

#[test]
fn runs_are_cut_at_the_bounds(rt: HostRuntime) -> Result<(), Fail> {
    let (list, next, more) = told(&rt, &PRESENT, 1, 5, 2)?;
    assert_eq!(rt; list.as_slice(), [(1, 2), (3, 4)].as_slice());
    assert_eq!(rt; (next, more), (5, false));
    let (list, next, more) = told(&rt, &PRESENT, 1, 6, 0)?;
    assert!(rt; list.is_empty());
    assert_eq!(rt; (next, more), (1, true));
    let (list, next, more) = told(&rt, &PRESENT, 6, 6, 0)?;
    assert!(rt; list.is_empty());
    assert_eq!(rt; (next, more), (6, false));
    Ok(())
}

#[test]
fn bounds_in_the_wrong_order_or_past_the_end_are_bad(rt: HostRuntime) {
    for (start, end) in [(3, 2), (0, 7), (7, 7)] {
        let answer = told(&rt, &PRESENT, start, end, 8).err();
        assert_eq!(rt; answer, Some(RangeFault::BadRange));
    }
}

#[test]
fn a_copy_has_the_same_ranges(rt: HostRuntime) -> Result<(), Fail> {
    let ranges = [(0, 2), (3, 4)];
    let copy = RangeList::of(rt.alloc(), ranges.as_slice())?;
    assert_eq!(rt; copy.as_slice(), ranges.as_slice());
    Ok(())
}
