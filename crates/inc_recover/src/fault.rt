ghost use Rattle.std.specs.Prelude.{◌≡◌};
ghost use Rattle.inc_recover.specs.declared.fault.MountFault.TheVariants.{DiskFault as disk_fault};

use inc_io::Failed;
use inc_layout::LayoutFault;

/// Why a file isn't mounted.
#[derive(Clone, Copy, Debug, PartialEq, Eq)]
pub enum MountFault {
    /// The file is none, or a read failed. A file that is mounted has at most 2^46 bytes.
    Layout(LayoutFault),
    /// A write or a sync failed.
    DiskFault,
    OutOfMemory,
}

/// A read has its own fault among those of the layout, so what else fails is a write or a sync.
impl From<Failed> for MountFault {
    ghost from_gives = { λ _ fault. fault ≡ disk_fault };

    fn from(_: Failed) -> Self {
        MountFault::DiskFault
    }
}

/// Want of memory is no fault of the file.
impl From<LayoutFault> for MountFault {
    ghost use Rattle.inc_recover.specs.Mounting.{mount_fault};

    ghost from_gives = { λ inner fault. fault ≡ mount_fault inner };

    fn from(inner: LayoutFault) -> Self {
        match inner {
            LayoutFault::OutOfMemory => MountFault::OutOfMemory,
            _ => MountFault::Layout(inner),
        }
    }
}
