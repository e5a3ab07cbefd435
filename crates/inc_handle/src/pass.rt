// The permission to fill a file.
ghost use Rattle.std.specs.Prelude.{◌≡◌};

use crate::SharedFile;
use inc_bytes::Id;
use inc_disk::Disk;

/// Leave to fill one file in one session.
#[derive(Clone, Copy, Debug, PartialEq, Eq)]
pub struct FillPass {
    pub id: Id,
    pub session: u32,
}

/// The pass for this file in this session.
pub fn permit_fill<D: Disk>(file: &SharedFile<D>, session: u32) -> FillPass
    ensures id { result.id ≡ file.now.begun.value.opened.header.id }
    ensures session { result.session ≡ session }
{
    FillPass {
        id: file.id(),
        session,
    }
}
