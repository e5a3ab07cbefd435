use inc_cell::{Answer, CellReply};
use inc_cell_samples::files::{FIRST_DIGEST, blocks, fresh_cell};
use inc_cell_samples::steps::{Came, Cell, ONE, READER, WHOLE, ask, take_all};
use inc_model::{MOST_ENTRIES, Reply, Times};
use std::alloc::Global;
use std::test::Fail;

/// A file of which all blocks are there.
fn whole(alloc: Global) -> Result<Cell, Fail> {
    let blocks = blocks(alloc)?;
    let mut cell = fresh_cell(alloc)?;
    match take_all(&mut cell, blocks.as_slice(), &WHOLE) {
        Came::Done => Ok(cell),
        _ => Err("a fill".into()),
    }
}

fn reply_of(answer: Answer) -> Option<Reply> {
    let Answer { reply, .. } = answer;
    match reply {
        CellReply::Done(reply) => Some(reply),
        _ => None,
    }
}

/// How many of both kinds of blocks are there, and how many runs of them.
fn counts(cell: &mut Cell) -> Option<(u32, u32, usize)> {
    let (data, hash) = match reply_of(cell.count(READER)) {
        Some(
            Reply::Counted {
                data_count,
                hash_count,
            },
        ) => (data_count, hash_count),
        _ => return None,
    };
    match reply_of(cell.ranges(READER, 0, 3, 10)) {
        Some(Reply::Filled { list, .. }) => Some((data, hash, list.as_slice().len())),
        _ => None,
    }
}

#[test]
fn a_whole_file_counts_its_blocks(rt: HostRuntime) -> Result<(), Fail> {
    let mut cell = whole(rt.alloc())?;
    assert_eq!(rt; counts(&mut cell), Some((2, 1, 1)));
    assert_eq!(rt; cell.state_of(0), Some(FIRST_DIGEST));
    assert_eq!(rt; cell.history().len(), 15);
    Ok(())
}

/// The blocks that wait, before a read is given up and after it.
fn waiting(cell: &mut Cell) -> Option<usize> {
    match reply_of(cell.take_pending(READER, 0, 10)) {
        Some(
            Reply::Taken {
                records,
                readers: 64,
            },
        ) => Some(records.as_slice().len()),
        _ => None,
    }
}

fn is_cancelled(cell: &mut Cell, serial: u32) -> bool {
    matches!(
        reply_of(cell.cancel(READER, serial)),
        Some(Reply::Cancelled)
    )
}

#[test]
fn a_read_that_is_given_up_waits_no_more(rt: HostRuntime) -> Result<(), Fail> {
    let mut cell = fresh_cell(rt.alloc())?;
    let serial = ask(&mut cell, 1, 0).ok_or("a read")?;
    assert_eq!(rt; waiting(&mut cell), Some(1));
    assert!(rt; is_cancelled(&mut cell, serial));
    assert_eq!(rt; waiting(&mut cell), Some(0));
    Ok(())
}

/// Whether times are set, a reader leaves, and a claim of the whole history is refused.
fn rest(cell: &mut Cell) -> [bool; 3] {
    let times = Times {
        least_read: 1,
        least_pending: 1,
        most_pending: 2,
    };
    let set = matches!(
        reply_of(cell.set_times(READER, 7, times)),
        Some(Reply::TimesSet)
    );
    let left = matches!(
        reply_of(cell.leave(READER)),
        Some(Reply::Left { readers: 63 })
    );
    let Answer { reply, at, .. } = cell.claim(ONE.who, ONE, MOST_ENTRIES as u32);
    let full = matches!(
        reply,
        CellReply::HistoryFull {
            entries: 2,
            claimed: 0
        }
    );
    [set, left, full && at == 2]
}

#[test]
fn times_are_set_a_reader_leaves_and_a_full_history_refuses(rt: HostRuntime) -> Result<(), Fail> {
    let mut cell = fresh_cell(rt.alloc())?;
    assert_eq!(rt; rest(&mut cell), [true, true, true]);
    Ok(())
}
