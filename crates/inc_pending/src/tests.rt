use super::*;
use std::test::*;

const ID: [u8; 16] = [
    0x00, 0x11, 0x22, 0x33, 0x44, 0x55, 0x66, 0x77, 0x88, 0x99, 0xaa, 0xbb, 0xcc, 0xdd, 0xee, 0xff,
];

/// A user, and the number of a reader's seat.
const UID: u32 = 10_001;

const READER: u32 = 1;

fn times(least_read: u64, least_pending: u64, most_pending: u64) -> Times {
    Times {
        least_read,
        least_pending,
        most_pending,
    }
}

/// A table with one read, asked at 1000 with these times.
fn with_read(rt: &HostRuntime, present: bool, t: Times) -> Result<Table, OutOfMemory> {
    let mut table = Table::new(rt.alloc());
    table.ask(READER, 4, present, UID, 1000, t)?;
    Ok(table)
}

#[test]
fn a_read_of_an_absent_block_times_out_at_its_deadline(rt: HostRuntime) -> Result<(), Fail> {
    let late = Decision::TimedOut {
        deadline: 1_001_000,
    };
    let mut table = with_read(&rt, false, Timeouts::new(rt.alloc()).get(UID))?;
    assert_eq!(rt; table.look(READER, 1, 1_000_999), Decision::NotYet);
    assert_eq!(rt; table.poll(READER, 1, 1_000_999), Decision::NotYet);
    assert_eq!(rt; table.look(READER, 1, 1_001_000), late);
    assert_eq!(rt; table.poll(READER, 1, 1_001_000), late);
    assert_eq!(rt; table.poll(READER, 1, 1_001_000), Decision::Stranger);
    Ok(())
}

#[test]
fn a_read_whose_block_came_is_handed_out_past_its_deadline(rt: HostRuntime) -> Result<(), Fail> {
    let handed = Decision::Hand { block: 4 };
    let mut table = with_read(&rt, false, Timeouts::new(rt.alloc()).get(UID))?;
    assert_eq!(rt; table.mark(4), 1);
    assert_eq!(rt; table.look(READER + 1, 1, 2_000_000), Decision::Stranger);
    assert_eq!(rt; table.poll(READER, 1, 2_000_000), handed);
    assert_eq!(rt; table.look(READER, 1, 2_000_000), Decision::Stranger);
    Ok(())
}

#[test]
fn a_read_is_held_back_until_its_floor(rt: HostRuntime) -> Result<(), Fail> {
    let handed = Decision::Hand { block: 4 };
    let there = with_read(&rt, true, times(300, 700, 50))?;
    assert_eq!(rt; there.look(READER, 1, 1299), Decision::NotYet);
    assert_eq!(rt; there.look(READER, 1, 1300), handed);
    let mut came = with_read(&rt, false, times(300, 700, 50))?;
    assert_eq!(rt; came.mark(4), 1);
    assert_eq!(rt; came.look(READER, 1, 1699), Decision::NotYet);
    assert_eq!(rt; came.look(READER, 1, 1700), handed);
    let stopped = with_read(&rt, true, times(u64::MAX, 0, 0))?;
    assert_eq!(rt; stopped.look(READER, 1, u64::MAX - 1), Decision::NotYet);
    assert_eq!(rt; stopped.look(READER, 1, u64::MAX), handed);
    Ok(())
}

#[test]
fn a_block_that_came_ends_the_wait_of_its_own_reads(rt: HostRuntime) -> Result<(), Fail> {
    let mut table = Table::new(rt.alloc());
    table.ask(READER, 4, false, UID, 1000, DEFAULT_TIMES)?;
    table.ask(READER, 4, false, UID, 1000, DEFAULT_TIMES)?;
    table.ask(READER, 5, false, UID, 1000, DEFAULT_TIMES)?;
    assert_eq!(rt; table.mark(4), 2);
    assert_eq!(rt; table.mark(4), 0);
    let record = PendingRecord {
        id: ID,
        asked: 1000,
        block: 5,
        serial: 3,
        uid: UID,
    };
    let told = table.take_after(rt.alloc(), &ID, 0, 8)?;
    assert_eq!(rt; told.as_slice(), [record].as_slice());
    assert_eq!(rt;
        table.take_after(rt.alloc(), &ID, 3, 8)?.as_slice().len(),
        0
    );
    assert_eq!(rt;
        table.take_after(rt.alloc(), &ID, 0, 0)?.as_slice().len(),
        0
    );
    assert!(rt; table.cancel(READER, 3));
    assert!(rt; !table.cancel(READER, 3));
    Ok(())
}

#[test]
fn the_257th_user_finds_no_row(rt: HostRuntime) -> Result<(), Fail> {
    let mut timeouts = Timeouts::new(rt.alloc());
    for uid in 1..257 {
        timeouts.set(uid * 2, times(0, 0, u64::from(uid)))?;
    }
    assert_eq!(rt;
        timeouts.set(257, times(1, 2, 3)).err(),
        Some(TimesFault::Full)
    );
    assert_eq!(rt; timeouts.set(256, times(1, 2, 3)).err(), None);
    assert_eq!(rt; timeouts.get(256), times(1, 2, 3));
    assert_eq!(rt; timeouts.get(254), times(0, 0, 127));
    assert_eq!(rt; timeouts.get(257), times(0, 0, 1_000_000));
    Ok(())
}

/// A read of block 4 at 1000, with the first serial, by the user 10000.
fn first_read(uid: u32) -> PendingRecord {
    PendingRecord {
        id: ID,
        asked: 1000,
        block: 4,
        serial: 1,
        uid,
    }
}

/// What follows the id in its 32 bytes.
const FIELDS: [u8; 16] = [0xe8, 0x03, 0, 0, 0, 0, 0, 0, 4, 0, 0, 0, 1, 0, 0, 0];

#[test]
fn a_record_has_the_bytes_of_the_public_interface(rt: HostRuntime) {
    let bytes = first_read(10_000).to_bytes();
    assert!(rt; &bytes[..16] == ID.as_slice());
    assert!(rt; &bytes[16..] == FIELDS.as_slice());
    assert!(rt; PendingRecord::of_bytes(&bytes) == first_read(0));
}

#[test]
fn the_wide_record_has_its_user(rt: HostRuntime) {
    let bytes = first_read(10_000).to_bytes2();
    assert!(rt; &bytes[..16] == ID.as_slice());
    assert!(rt; &bytes[16..32] == FIELDS.as_slice());
    assert!(rt; &bytes[32..] == [0x10, 0x27, 0, 0, 0, 0, 0, 0].as_slice());
    assert!(rt; PendingRecord::of_bytes2(&bytes) == first_read(10_000));
}
