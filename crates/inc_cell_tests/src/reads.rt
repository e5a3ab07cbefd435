use inc_cell::{Answer, Digested, HandedBytes};
use inc_cell_samples::files::{
    FIRST_DIGEST, MANY, Plan, SECOND_DIGEST, blocks, bytes_of, cell_of, content, fresh_cell,
    fresh_flat,
};
use inc_cell_samples::steps::{
    Came, Cell, ONE, Polled, READER, Step, WHOLE, ask, poll, read, take_all,
};
use std::alloc::Global;
use std::test::Fail;

/// The two data blocks of a file without a tree.
const FLAT: [Step; 8] = [
    Step::Claim(ONE),
    Step::Put(ONE, 0),
    Step::Put(ONE, 1),
    Step::Place(ONE, 0),
    Step::Place(ONE, 1),
    Step::Settle(ONE),
    Step::Gate(ONE, 0),
    Step::Gate(ONE, 1),
];

/// Fills the whole file.
fn fill(alloc: Global, cell: &mut Cell) -> Result<(), Fail> {
    let blocks = blocks(alloc)?;
    match take_all(cell, blocks.as_slice(), &WHOLE) {
        Came::Done => Ok(()),
        _ => Err("a fill".into()),
    }
}

/// The whole file over a disk that fails at one call after its mount.
fn whole_failing(alloc: Global, call: u32) -> Result<Cell, Fail> {
    let mut cell = fresh_cell(alloc)?;
    fill(alloc, &mut cell)?;
    cell_of(alloc, bytes_of(alloc, cell)?.as_slice(), Plan::At(call))
}

/// What comes of a read that was asked before its block was there, polled before the fill and after it.
fn polls_around_fill(alloc: Global) -> Result<[Polled; 3], Fail> {
    let mut cell = fresh_cell(alloc)?;
    let serial = ask(&mut cell, 1, 1000).ok_or("a read")?;
    let before = poll(&mut cell, serial, 1000, &[]);
    fill(alloc, &mut cell)?;
    let after = poll(&mut cell, serial, 1001, &[]);
    Ok([before, after, poll(&mut cell, serial, 1002, &[])])
}

#[test]
fn a_read_waits_for_its_block_and_gets_it_once(rt: HostRuntime) -> Result<(), Fail> {
    let polls = polls_around_fill(rt.alloc())?;
    let handed = Polled::Handed(SECOND_DIGEST, 1);
    assert_eq!(rt; polls, [Polled::NotYet, handed, Polled::Stranger]);
    Ok(())
}

/// What comes of a read asked at 1000 whose block never comes, at its deadline after 1,000,000 microseconds and just before.
fn polls_at_deadline(alloc: Global) -> Result<[Polled; 3], Fail> {
    let mut cell = fresh_cell(alloc)?;
    let serial = ask(&mut cell, 1, 1000).ok_or("a read")?;
    let before = poll(&mut cell, serial, 1_000_999, &[]);
    let there = poll(&mut cell, serial, 1_001_000, &[]);
    Ok([before, there, poll(&mut cell, serial, 1_001_000, &[])])
}

#[test]
fn a_read_times_out_at_its_deadline_and_not_before(rt: HostRuntime) -> Result<(), Fail> {
    let polls = polls_at_deadline(rt.alloc())?;
    let timed_out = Polled::TimedOut(1_001_000);
    assert_eq!(rt; polls, [Polled::NotYet, timed_out, Polled::Stranger]);
    Ok(())
}

/// What a poll hands out where the hash blocks of these numbers are known.
fn poll_knowing(alloc: Global, known: &[u32]) -> Result<Polled, Fail> {
    let mut cell = fresh_cell(alloc)?;
    fill(alloc, &mut cell)?;
    let serial = ask(&mut cell, 0, 0).ok_or("a read")?;
    Ok(poll(&mut cell, serial, 0, known))
}

#[test]
fn a_known_hash_block_is_left_out_and_another_number_does_nothing(
    rt: HostRuntime,
) -> Result<(), Fail> {
    let known = poll_knowing(rt.alloc(), &[5, 0])?;
    assert_eq!(rt; known, Polled::Handed(FIRST_DIGEST, 0));
    let others = poll_knowing(rt.alloc(), &[1, 2, 7])?;
    assert_eq!(rt; others, Polled::Handed(FIRST_DIGEST, 1));
    Ok(())
}

fn read_flat(alloc: Global) -> Result<Polled, Fail> {
    let blocks = blocks(alloc)?;
    let mut cell = cell_of(alloc, fresh_flat(alloc)?.as_slice(), Plan::After(MANY))?;
    match take_all(&mut cell, blocks.as_slice(), &FLAT) {
        Came::Done => Ok(read(&mut cell, 1)),
        _ => Err("a fill".into()),
    }
}

#[test]
fn a_block_of_a_file_without_a_tree_has_no_path(rt: HostRuntime) -> Result<(), Fail> {
    assert_eq!(rt; read_flat(rt.alloc())?, Polled::Handed(SECOND_DIGEST, 0));
    Ok(())
}

/// What comes of two polls of a read where the disk fails at this call of the first one.
fn polls_failing(alloc: Global, call: u32) -> Result<[Polled; 2], Fail> {
    let mut cell = whole_failing(alloc, call)?;
    let serial = ask(&mut cell, 0, 0).ok_or("a read")?;
    let first = poll(&mut cell, serial, 0, &[]);
    Ok([first, poll(&mut cell, serial, 0, &[])])
}

#[test]
fn a_failed_device_read_leaves_the_read(rt: HostRuntime) -> Result<(), Fail> {
    for call in 0..2 {
        let polls = polls_failing(rt.alloc(), call)?;
        assert_eq!(rt; polls, [Polled::Fault(1), Polled::Handed(FIRST_DIGEST, 1)]);
    }
    Ok(())
}

/// What a read of a block hands out.
fn handed(cell: &mut Cell, block: u32) -> Option<HandedBytes> {
    let serial = ask(cell, block, 0)?;
    let Answer { handed, .. } = cell.poll(READER, serial, 0);
    handed
}

/// The bytes of a block without the zeros behind them.
fn own_bytes(alloc: Global, block: &Digested) -> Result<Vec<u8>, Fail> {
    let mut bytes = block.bytes().to_vec(alloc)?;
    bytes.truncate(block.len() as usize);
    Ok(bytes)
}

fn bytes_handed(alloc: Global, block: u32) -> Result<Vec<u8>, Fail> {
    let mut cell = fresh_cell(alloc)?;
    fill(alloc, &mut cell)?;
    match handed(&mut cell, block) {
        Some(handed) => own_bytes(alloc, &handed.block),
        None => Err("a block".into()),
    }
}

/// The bytes of both data blocks.
fn all_handed(alloc: Global) -> Result<Vec<u8>, Fail> {
    let mut bytes = bytes_handed(alloc, 0)?;
    bytes.extend_from_slice(bytes_handed(alloc, 1)?.as_slice())?;
    Ok(bytes)
}

#[test]
fn the_blocks_own_bytes_are_handed_out(rt: HostRuntime) -> Result<(), Fail> {
    let handed = all_handed(rt.alloc())?;
    assert!(rt; handed.as_slice() == content(rt.alloc())?.as_slice());
    Ok(())
}

/// How many reads the log keeps and has lost, and the serial of the first that it keeps, after so many reads that were handed out.
fn logged_after(alloc: Global, reads: u32) -> Result<(usize, u64, Option<u32>), Fail> {
    let mut cell = fresh_cell(alloc)?;
    fill(alloc, &mut cell)?;
    for _ in 0..reads {
        let _ = read(&mut cell, 0);
    }
    let log = cell.log();
    let first = log.nth(0).map(|entry| entry.serial);
    Ok((log.kept(), log.lost(), first))
}

#[test]
fn the_log_keeps_the_last_1024_reads_that_ended(rt: HostRuntime) -> Result<(), Fail> {
    let (kept, lost, first) = logged_after(rt.alloc(), 1025)?;
    assert!(rt; kept == 1024 && lost == 1 && first == Some(2));
    Ok(())
}
