use crate::{
    Backing, Bell, Bytes, Clock, Failed, Gate, MemBell, MemFile, MemSink, MemSource, Name,
    OpenGate, Sink, Source, StepClock,
};
use std::alloc::Global;
use std::test::Fail;

#[test]
fn names_are_judged_by_their_bytes(rt: HostRuntime) -> Result<(), Fail> {
    let alloc = rt.alloc();
    let long = [b'n'; 256];
    for (bytes, wanted) in [
        (b"one".as_slice(), true),
        (b"a.b".as_slice(), true),
        ("\u{e9}t\u{e9}".as_bytes(), true),
        (b"...".as_slice(), true),
        (&long[..255], true),
        (b"".as_slice(), false),
        (b".".as_slice(), false),
        (b"..".as_slice(), false),
        (b"a/b".as_slice(), false),
        (b"a b".as_slice(), false),
        (b"a\n".as_slice(), false),
        (b"\xff".as_slice(), false),
        (long.as_slice(), false),
    ] {
        assert_eq!(rt; Name::of(alloc, bytes)?.is_some(), wanted, "at {bytes:?}");
    }
    Ok(())
}

#[test]
fn a_file_is_read_by_places(rt: HostRuntime) -> Result<(), Fail> {
    let mut file = MemFile::new(Bytes::of(rt.alloc(), b"0123456789")?, 4);
    assert_eq!(rt; file.len(), Ok(10));
    let mut room = [0u8; 4];
    assert_eq!(rt; file.read_at(3, &mut room), Ok(4));
    assert_eq!(rt; room, *b"3456");
    assert_eq!(rt; file.read_at(8, &mut room), Ok(2));
    assert_eq!(rt; room, *b"8956");
    assert_eq!(rt; file.read_at(11, &mut room), Ok(0));
    assert_eq!(rt; file.len(), Err(Failed));
    assert_eq!(rt; file.fault_count(), 1);
    Ok(())
}

/// Through the bound alone.
fn read_all<S: Source>(alloc: Global, source: &mut S) -> Result<Vec<u8>, Fail> {
    let mut all = Vec::new(alloc);
    let mut room = [0u8; 4];
    for _ in 0..u64::MAX {
        let count = source.read(&mut room)?;
        if count == 0 {
            break;
        }
        all.extend_from_slice(&room[..count])?;
    }
    Ok(all)
}

#[test]
fn a_source_gives_pieces_up_to_its_cut(rt: HostRuntime) -> Result<(), Fail> {
    let alloc = rt.alloc();
    let bytes = Bytes::of(alloc, b"abcdefghij")?;
    let mut source = MemSource::new(bytes, 3, [1u64].to_vec(alloc)?);
    let mut room = [0u8; 4];
    assert_eq!(rt; source.read(&mut []), Ok(0));
    assert_eq!(rt; source.read(&mut room), Err(Failed));
    assert_eq!(rt; source.read(&mut room), Ok(3));
    assert_eq!(rt; room, *b"abc\0");
    assert_eq!(rt;
        read_all(alloc, &mut source)?.as_slice(),
        b"defghij".as_slice()
    );
    assert_eq!(rt; source.read(&mut room), Ok(0));
    Ok(())
}

/// Through the bounds alone, as threads share it.
fn read_clock<C: Clock + Sync>(clock: &C) -> u64 {
    clock.now()
}

#[test]
fn a_step_clock_goes_on_and_stops_at_its_end(rt: HostRuntime) -> Result<(), Fail> {
    let clock = StepClock::new(u64::MAX - 30, 20);
    assert_eq!(rt; clock.now(), u64::MAX - 30);
    assert_eq!(rt; read_clock(&clock), u64::MAX - 10);
    assert_eq!(rt; clock.now(), u64::MAX);
    Ok(())
}

#[test]
fn a_sink_takes_pieces_up_to_its_room(rt: HostRuntime) -> Result<(), Fail> {
    let mut sink = MemSink::new(rt.alloc(), 5, 3, [1u64].to_vec(rt.alloc())?)?;
    assert_eq!(rt; sink.write(b"abcd"), Ok(3));
    assert_eq!(rt; sink.write(b"d"), Err(Failed));
    assert_eq!(rt; sink.write(b"defg"), Ok(2));
    assert_eq!(rt; sink.write(b"f"), Err(Failed));
    assert_eq!(rt; sink.bytes(), b"abcde".as_slice());
    Ok(())
}

/// Through the bounds alone, as a worker has them.
fn pass<B: Bell + Sync, G: Gate + Sync>(bell: &B, gate: &G) -> u64 {
    let seen = bell.seen();
    gate.before(1, 1);
    bell.ring();
    gate.after(1, 1);
    bell.rest(seen, u64::MAX);
    bell.seen()
}

#[test]
fn a_bell_counts_its_rings(rt: HostRuntime) -> Result<(), Fail> {
    let bell = MemBell::new();
    assert_eq!(rt; bell.seen(), 0);
    assert_eq!(rt; pass(&bell, &OpenGate::new()), 1);
    Ok(())
}
