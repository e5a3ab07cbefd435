// The log of the reads that a poll ended.
ghost use Rattle.std.specs.Prelude.{ℕ, ◌≡◌, ◌++◌, List};
ghost use Rattle.inc_readlog.specs.Log.{Tells};
ghost use Rattle.inc_readlog.specs.declared.entry.LogEntry.{LogEntry};
ghost use Rattle.inc_cell.specs.events.Ended.{ended_poll, ended_row};
ghost use Rattle.inc_cell.specs.events.Steps.{log_then};

use inc_model::{ReadRow, Reply};
use inc_readlog::{LogEntry, ReadLog};

/// Logs a read that a reply ends.
pub fn keep_read(log: &mut ReadLog, read: Option<ReadRow>, now: u64, reply: &Reply)
    ensures value { log.new ≡ log_then log.old (ended_poll read now reply.now) }
    ensures told { (all : List LogEntry) → Tells all log.old → Tells (all ++ ended_poll read now reply.now) log.new }
{
    match reply {
        Reply::Handed { .. } => end_read(log, read, now, 0),
        Reply::TimedOut { .. } => end_read(log, read, now, 1),
        Reply::NoPath { .. } => end_read(log, read, now, 2),
        _ => {}
    }
}

/// Logs a read that ended in one of the three ways.
fn end_read(log: &mut ReadLog, read: Option<ReadRow>, now: u64, kind: u8)
    ensures value { log.new ≡ log_then log.old (ended_row read now kind) }
    ensures told { (all : List LogEntry) → Tells all log.old → Tells (all ++ ended_row read now kind) log.new }
{
    if let Some(row) = read {
        log.push(LogEntry {
            serial: row.serial,
            block: row.block,
            uid: row.uid,
            now,
            kind,
        });
    }
}
