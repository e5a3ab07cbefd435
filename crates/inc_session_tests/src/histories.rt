use inc_history::{PureFault, PureFile, Round, World, fresh_file};
use inc_model::{
    Digest32, Entry, Event, FileCore, Indices, MOST_ENTRIES, Machine, Reply, Rows, Slots, Window,
};
use std::alloc::{AllocError, Global};
use std::test::Fail;

const FILLER: Window = Window { who: 3, count: 0 };

const DIGEST: Digest32 = [9; 32];

fn asked(file: &mut PureFile, who: u32, block: u32) -> bool {
    let event = Event::Ask {
        block,
        uid: 0,
        now: 1000,
    };
    matches!(file.step(who, event), Ok(Reply::Asked { .. }))
}

fn claimed(file: &mut PureFile, places: u32) -> bool {
    let event = Event::Claim {
        window: FILLER,
        places,
    };
    matches!(file.step(3, event), Ok(Reply::Claimed))
}

fn put(file: &mut PureFile, index: u32) -> bool {
    let event = Event::PutData {
        window: FILLER,
        index,
        digest: DIGEST,
    };
    matches!(file.step(3, event), Ok(Reply::Put { .. }))
}

fn placed(file: &mut PureFile, index: u32) -> bool {
    let event = Event::PutPlace {
        window: FILLER,
        index,
    };
    matches!(file.step(3, event), Ok(Reply::Placed))
}

fn settled(file: &mut PureFile) -> bool {
    let event = Event::Settle { window: FILLER };
    matches!(file.step(3, event), Ok(Reply::Settled))
}

/// Whether a gate ended the wait of two reads.
fn gated_two(file: &mut PureFile, index: u32) -> bool {
    let event = Event::Gate {
        window: FILLER,
        index,
    };
    matches!(file.step(3, event), Ok(Reply::Gated { marked: 2 }))
}

fn released(file: &mut PureFile) -> bool {
    let event = Event::Release { window: FILLER };
    matches!(file.step(3, event), Ok(Reply::Released))
}

fn has_room(file: &mut PureFile) -> bool {
    let event = Event::Claim {
        window: FILLER,
        places: MOST_ENTRIES as u32,
    };
    !matches!(file.step(3, event), Err(PureFault::HistoryFull { .. }))
}

fn poll(file: &mut PureFile, now: u64) -> Result<Reply, PureFault> {
    file.step(1, Event::Poll { serial: 1, now })
}

/// Whether a gate ends the wait of the two reads of its block, and not that of the third.
fn gates_its_own(file: &mut PureFile) -> bool {
    let is_asked = asked(file, 1, 4) && asked(file, 2, 4) && asked(file, 1, 5);
    let is_placed = claimed(file, 6) && put(file, 4) && placed(file, 4) && settled(file);
    is_asked && is_placed && gated_two(file, 4) && settled(file) && released(file)
}

#[test]
fn a_gate_ends_the_wait_of_its_own_reads(rt: HostRuntime) {
    let mut file = PureFile::new(rt.alloc(), fresh_file(rt.alloc()));
    assert!(rt; gates_its_own(&mut file));
}

fn waits(file: &mut PureFile, now: u64) -> bool {
    matches!(poll(file, now), Ok(Reply::NotYet))
}

/// Whether a read is late, with this deadline.
fn is_late(file: &mut PureFile, now: u64) -> bool {
    matches!(
        poll(file, now),
        Ok(Reply::TimedOut {
            deadline: 1_001_000
        })
    )
}

/// Whether a read of an absent block waits up to its deadline and is late then.
fn is_late_at_its_deadline(file: &mut PureFile) -> bool {
    asked(file, 1, 0) && waits(file, 1_000_999) && is_late(file, 1_001_000) && !has_room(file)
}

#[test]
fn a_read_of_an_absent_block_times_out_at_its_deadline(rt: HostRuntime) {
    let mut file = PureFile::new(rt.alloc(), fresh_file(rt.alloc()));
    assert!(rt; is_late_at_its_deadline(&mut file));
}

/// A read, as its seat is told that it waits.
fn asked_once() -> Entry {
    let event = Event::Ask {
        block: 4,
        uid: 0,
        now: 1000,
    };
    Entry {
        who: 1,
        event,
        reply: Reply::Asked { serial: 1 },
    }
}

/// Two reads whose replies have the same serial.
fn asked_twice(alloc: Global) -> Result<Rows<Entry>, AllocError> {
    let mut entries = Rows::new(alloc);
    entries.push(asked_once())?;
    entries.push(asked_once())?;
    Ok(entries)
}

/// How many of these entries are legal, from the first on.
fn legal_of(alloc: Global, entries: Rows<Entry>) -> Result<u64, AllocError> {
    let round = Round {
        entries,
        crash: false,
    };
    Ok(World::run(alloc, &[round])?.done)
}

#[test]
fn a_run_ends_before_a_wrong_reply(rt: HostRuntime) -> Result<(), Fail> {
    let entries = asked_twice(rt.alloc())?;
    assert_eq!(rt; legal_of(rt.alloc(), entries)?, 1);
    Ok(())
}

/// Three data blocks and a hash block, of which the first is there; the second is acknowledged and the third begun.
fn slots(alloc: Global) -> Result<Slots, AllocError> {
    let digests = [Some(DIGEST), None, None, None];
    let mut slots = Slots::of(alloc, 3, 1, &digests)?;
    slots.acknowledge(1);
    slots.open(2, [7; 32]);
    Ok(slots)
}

fn acknowledged(slots: &Slots) -> (bool, bool) {
    (slots.is_acknowledged(0), slots.is_acknowledged(1))
}

#[test]
fn slots_hold_what_is_acknowledged(rt: HostRuntime) -> Result<(), Fail> {
    let digests = [Some(DIGEST), None, None, None];
    let fresh = Slots::of(rt.alloc(), 3, 1, &digests)?;
    assert_eq!(rt; acknowledged(&fresh), (true, false));
    assert_eq!(rt; acknowledged(&slots(rt.alloc())?), (true, true));
    Ok(())
}

/// A file over these slots, in which no read waits and which has 64 places.
fn core_over(alloc: Global, slots: Slots) -> FileCore<Slots> {
    let none = Vec::new(alloc);
    FileCore::over(alloc, [0; 16], None, slots, none, Vec::new(alloc), 0, 64)
}

fn holds_what_it_is_opened_with(core: &FileCore<Slots>) -> bool {
    core.digest_of(0) == Some(DIGEST)
        && core.digest_of(1).is_none()
        && core.begun_digest(2) == Some([7; 32])
        && core.data_blocks() == 3
        && core.hash_blocks() == 1
}

#[test]
fn a_file_holds_what_it_is_opened_with(rt: HostRuntime) -> Result<(), Fail> {
    let core = core_over(rt.alloc(), slots(rt.alloc())?);
    assert!(rt; holds_what_it_is_opened_with(&core));
    Ok(())
}
