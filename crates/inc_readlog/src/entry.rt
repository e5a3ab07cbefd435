/// A read that ended.
#[derive(Clone, Copy, Debug, PartialEq, Eq)]
pub struct LogEntry {
    pub serial: u32,
    pub block: u32,
    pub uid: u32,
    /// When it ended, in microseconds.
    pub now: u64,
    /// How it ended: 0 handed, 1 timed out, 2 a hash block of its path was absent.
    pub kind: u8,
}
