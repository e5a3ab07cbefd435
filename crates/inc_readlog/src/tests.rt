use super::*;
use std::test::*;

/// The read with this serial, which ended a thousand microseconds after the one before it.
fn entry(serial: u32) -> LogEntry {
    LogEntry {
        serial,
        block: 4,
        uid: 10_001,
        now: u64::from(serial) * 1000,
        kind: 0,
    }
}

#[test]
fn a_log_keeps_the_last_reads_and_counts_the_others(rt: HostRuntime) -> Result<(), Fail> {
    let mut log = ReadLog::new(rt.alloc(), 1024)?;
    assert_eq!(rt; (log.kept(), log.lost(), log.nth(0)), (0, 0, None));
    for serial in 1..1025 {
        log.push(entry(serial));
    }
    assert_eq!(rt; (log.kept(), log.lost()), (1024, 0));
    assert_eq!(rt; log.nth(0), Some(entry(1)));
    log.push(entry(1025));
    assert_eq!(rt; (log.kept(), log.lost()), (1024, 1));
    assert_eq!(rt; log.nth(0), Some(entry(2)));
    assert_eq!(rt; log.nth(1023), Some(entry(1025)));
    assert_eq!(rt; log.nth(1024), None);
    Ok(())
}

#[test]
fn a_log_of_one_read_keeps_the_newest(rt: HostRuntime) -> Result<(), Fail> {
    let mut log = ReadLog::new(rt.alloc(), 1)?;
    for serial in 1..4 {
        log.push(entry(serial));
    }
    assert_eq!(rt; (log.kept(), log.lost()), (1, 2));
    assert_eq!(rt; log.nth(0), Some(entry(3)));
    assert_eq!(rt; log.nth(1), None);
    Ok(())
}
