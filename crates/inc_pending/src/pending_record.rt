ghost use Rattle.std.specs.Prelude.{◌≡◌, ℕ, List, ◌++◌, take, replicate};
ghost use Rattle.inc_pending.specs.Record.{record_bytes, record_in, record_bytes2, record_in2};

use inc_bytes::{Id, Rows, get_u32, get_u64, put_u32, put_u64};

/// A read that waits, as the public interface tells it: the file's id, when it was asked in microseconds,
/// its block's index and its serial, in 32 bytes, and in 40 bytes with the user who asked.
#[derive(Clone, Copy, Debug, PartialEq, Eq)]
pub struct PendingRecord {
    pub id: Id,
    pub asked: u64,
    pub block: u32,
    pub serial: u32,
    pub uid: u32,
}

impl PendingRecord {
    /// The record without its user.
    pub fn to_bytes(&self) -> [u8; 32]
        ensures value { result ≡ record_bytes self.now }
        ensures back { record_in result ≡ record self.now { uid = 0 } }
    {
        let mut bytes = [0; 32];
        let PendingRecord {
            id,
            asked,
            block,
            serial,
            uid: _,
        } = *self;
        bytes[..16].copy_from_slice(&id);
        put_u64(&mut bytes, 16, asked);
        put_u32(&mut bytes, 24, block);
        put_u32(&mut bytes, 28, serial);
        bytes
    }

    /// Each 32 bytes are a record, of the user 0.
    pub fn of_bytes(b: &[u8; 32]) -> PendingRecord
        ensures value { result ≡ record_in b.now }
        ensures back { record_bytes result ≡ b.now }
    {
        let mut id = [0; 16];
        id.copy_from_slice(&b[..16]);
        PendingRecord {
            id,
            asked: get_u64(b, 16).unwrap(),
            block: get_u32(b, 24).unwrap(),
            serial: get_u32(b, 28).unwrap(),
            uid: 0,
        }
    }

    /// The record with its user.
    pub fn to_bytes2(&self) -> [u8; 40]
        ensures value { result ≡ record_bytes2 self.now }
        ensures back { record_in2 result ≡ self.now }
    {
        let mut bytes = [0; 40];
        let uid = self.uid;
        bytes[..32].copy_from_slice(&self.to_bytes());
        put_u32(&mut bytes, 32, uid);
        bytes
    }

    /// Each 40 bytes are a record, whatever the last four are.
    pub fn of_bytes2(b: &[u8; 40]) -> PendingRecord
        ensures value { result ≡ record_in2 b.now }
        ensures back { record_bytes2 result ≡ take 36 b.now ++ replicate 4 0 }
        ensures unread { (rest : List ℕ) → record_in2 (take 36 b.now ++ rest) ≡ result }
    {
        let mut front = [0; 32];
        front.copy_from_slice(&b[..32]);
        let mut record = PendingRecord::of_bytes(&front);
        record.uid = get_u32(b, 32).unwrap();
        record
    }
}

/// A list of pending records.
pub type RecordList = Rows<PendingRecord>;
