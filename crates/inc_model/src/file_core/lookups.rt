// What the state tells of an index.
ghost use Rattle.std.specs.Prelude.{◌≡◌};
ghost use Rattle.inc_pending.specs.Keyed.{lookup};
ghost use Rattle.inc_pending.specs.Polling.{read_of};
ghost use Rattle.inc_model.specs.relation.State.{has, flight_row};

use crate::file_core::FileCore;
use crate::state_lists::flight::find_row;
use crate::{Digest32, FlightRow, Indices, ReadRow};

fn find_read(reads: &[ReadRow], who: u32, serial: u32) -> Option<ReadRow>
    ensures value { result ≡ read_of who serial reads.now }
{
    for row in reads {
        if row.serial == serial && row.who == who {
            return Some(*row);
        }
    }
    None
}

impl<I: Indices> FileCore<I> {
    pub fn data_blocks(&self) -> u32
        ensures value { result ≡ self.now.state.n }
    {
        self.indices.data_blocks()
    }

    pub fn hash_blocks(&self) -> u32
        ensures value { result ≡ self.now.state.m }
    {
        self.indices.hash_blocks()
    }

    /// The device's count of faults, as the last call that failed told it.
    pub fn fault_count(&self) -> u64
        ensures value { result ≡ self.now.state.faults }
    {
        self.faults
    }

    /// The digest of an open index.
    pub fn digest_of(&self, index: u32) -> Option<Digest32>
        ensures value { result ≡ lookup index self.now.state.map }
    {
        self.indices.digest_of(index)
    }

    /// The digest with which an index's gate write began.
    pub fn begun_digest(&self, index: u32) -> Option<Digest32>
        ensures value { result ≡ lookup index self.now.state.begun }
    {
        self.indices.begun_digest(index)
    }

    pub fn is_acknowledged(&self, index: u32) -> bool
        ensures value { result ≡ has index self.now.state.acknowledged }
    {
        self.indices.is_acknowledged(index)
    }

    /// The row of an index in flight.
    pub fn row_of(&self, index: u32) -> Option<FlightRow>
        ensures value { result ≡ flight_row index self.now.state.flight }
    {
        find_row(self.flight.as_slice(), index)
    }

    /// This asker's read with this serial.
    pub fn read_of(&self, who: u32, serial: u32) -> Option<ReadRow>
        ensures value { result ≡ read_of who serial self.now.state.reads }
    {
        find_read(self.reads.as_slice(), who, serial)
    }
}
