use inc_cell_samples::files::{FIRST_DIGEST, HASH, Plan, blocks, bytes_of, cell_of, fresh_cell};
use inc_cell_samples::steps::{Came, ONE, OTHER, Polled, Step, WHOLE, read, take, take_all};
use inc_tree::{Block, Digest32};
use sha2::{Digest, Sha256};
use std::alloc::Global;
use std::test::Fail;

/// The SHA-256 of the whole file, as another program fills it.
const WHOLE_SUM: Digest32 = [
    0x64, 0x63, 0xd0, 0x1b, 0x3b, 0xb5, 0xeb, 0xbf, 0xc6, 0x65, 0x03, 0x45, 0xe0, 0xa8, 0x5f, 0x01,
    0xb8, 0x7e, 0xef, 0xa9, 0x1e, 0x0a, 0x45, 0xfc, 0xde, 0x9b, 0xbc, 0x2b, 0xf5, 0x56, 0xaf, 0xbb,
];

/// A fill of the hash block and the first data block.
const FRONT: [Step; 10] = [
    Step::Claim(ONE),
    Step::Put(ONE, HASH),
    Step::Put(ONE, 0),
    Step::Place(ONE, HASH),
    Step::Place(ONE, 0),
    Step::Settle(ONE),
    Step::Gate(ONE, HASH),
    Step::Gate(ONE, 0),
    Step::Settle(ONE),
    Step::Release(ONE),
];

/// A fill of the second data block: each step but the claim calls the disk once.
const LAST: [Step; 6] = [
    Step::Claim(ONE),
    Step::Put(ONE, 1),
    Step::Place(ONE, 1),
    Step::Settle(ONE),
    Step::Gate(ONE, 1),
    Step::Settle(ONE),
];

/// A fill of the first data block, up to its gate.
const GATED: [Step; 5] = [
    Step::Put(ONE, 0),
    Step::Place(ONE, 0),
    Step::Settle(ONE),
    Step::Gate(ONE, 0),
    Step::Claim(OTHER),
];

/// Two windows of which the one settles the other's place, and the other the one's gate.
const TOGETHER: [Step; 10] = [
    Step::Claim(ONE),
    Step::Claim(OTHER),
    Step::Put(ONE, 0),
    Step::Put(OTHER, 1),
    Step::Place(ONE, 0),
    Step::Place(OTHER, 1),
    Step::Settle(ONE),
    Step::Gate(OTHER, 1),
    Step::Gate(ONE, 0),
    Step::Settle(OTHER),
];

/// The bytes of the file after these steps.
fn bytes_after(alloc: Global, steps: &[Step]) -> Result<Vec<u8>, Fail> {
    let blocks = blocks(alloc)?;
    let mut cell = fresh_cell(alloc)?;
    match take_all(&mut cell, blocks.as_slice(), steps) {
        Came::Done => bytes_of(alloc, cell),
        _ => Err("a fill".into()),
    }
}

fn sum_of(bytes: &[u8]) -> Digest32 {
    let mut hasher = Sha256::new();
    hasher.update(bytes);
    hasher.finalize()
}

#[test]
fn a_whole_fill_makes_the_file_that_another_program_makes(rt: HostRuntime) -> Result<(), Fail> {
    let bytes = bytes_after(rt.alloc(), &WHOLE)?;
    assert_eq!(rt; sum_of(bytes.as_slice()), WHOLE_SUM);
    Ok(())
}

/// What comes of a second put of a block that is in flight at two stages, and of one once it is acknowledged.
fn second_puts(alloc: Global) -> Result<[Came; 3], Fail> {
    let blocks = blocks(alloc)?;
    let mut cell = fresh_cell(alloc)?;
    let _ = take(&mut cell, blocks.as_slice(), Step::Put(ONE, 0));
    let written = take(&mut cell, blocks.as_slice(), Step::Put(OTHER, 0));
    let _ = take_all(&mut cell, blocks.as_slice(), &GATED[1..]);
    let gated = take(&mut cell, blocks.as_slice(), Step::Put(OTHER, 0));
    let _ = take(&mut cell, blocks.as_slice(), Step::Settle(ONE));
    let settled = take(&mut cell, blocks.as_slice(), Step::Put(OTHER, 0));
    Ok([written, gated, settled])
}

#[test]
fn a_block_is_busy_in_flight_and_present_once_acknowledged(rt: HostRuntime) -> Result<(), Fail> {
    let puts = second_puts(rt.alloc())?;
    assert_eq!(rt; puts, [Came::Busy, Came::Busy, Came::Present]);
    Ok(())
}

/// Whether two blocks stay in flight of no window once either window has settled.
fn puts_after_both(alloc: Global, blocks: &[Block]) -> Result<[Came; 2], Fail> {
    let mut cell = fresh_cell(alloc)?;
    let _ = take_all(&mut cell, blocks, &TOGETHER);
    let first = take(&mut cell, blocks, Step::Put(ONE, 1));
    let second = take(&mut cell, blocks, Step::Put(OTHER, 0));
    Ok([first, second])
}

#[test]
fn a_window_settles_what_another_has_in_flight(rt: HostRuntime) -> Result<(), Fail> {
    let puts = puts_after_both(rt.alloc(), blocks(rt.alloc())?.as_slice())?;
    assert_eq!(rt; puts, [Came::Present, Came::Present]);
    Ok(())
}

/// What comes of the last fill where its call of this number fails, of a claim after it, and of a read of a block that is acknowledged.
fn after_fault(alloc: Global, front: &[u8], call: u32) -> Result<(Came, Came, Polled), Fail> {
    let blocks = blocks(alloc)?;
    let mut cell = cell_of(alloc, front, Plan::At(call))?;
    let failing = take_all(&mut cell, blocks.as_slice(), &LAST);
    let later = take(&mut cell, blocks.as_slice(), Step::Claim(OTHER));
    Ok((failing, later, read(&mut cell, 0)))
}

#[test]
fn a_failed_write_or_sync_ends_all_fills_and_no_read(rt: HostRuntime) -> Result<(), Fail> {
    let front = bytes_after(rt.alloc(), &FRONT)?;
    for call in 0..5u32 {
        let at = u64::from(call).saturating_add(1);
        let (failing, later, read) = after_fault(rt.alloc(), front.as_slice(), call)?;
        assert_eq!(rt; failing, Came::Fault(at));
        assert_eq!(rt; later, Came::Failed(at));
        assert_eq!(rt; read, Polled::Handed(FIRST_DIGEST, 1));
    }
    Ok(())
}
