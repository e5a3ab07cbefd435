ghost use Rattle.std.specs.Prelude.{◌≡◌, ◌≢◌, ℕ, Result, Ok};
ghost use Rattle.inc_io.specs.Causes.{Rose};
ghost use Rattle.inc_layout.specs.declared.fault.LayoutFault.{LayoutFault};
ghost use Rattle.inc_layout.specs.declared.opened.Opened.{Opened};
ghost use Rattle.inc_recover.specs.Mounting.{FaultCause, GivesLayout, GivesMountFault, IsOwnMountFault, LayoutCause};
ghost use Rattle.inc_recover.specs.declared.fault.MountFault.TheVariants.{Layout};
ghost use Rattle.inc_volume.specs.mounting.Targets.{IsNoVerdict, IsOwnRefusal, IsRefusing, refusal_by_lend};
ghost use Rattle.inc_volume.specs.declared.mounting.refusal.MountRefusal.TheVariants.{Fault as refusal_fault, OutOfMemory as out_of_memory};

use crate::verdict::Verdict;
use inc_io::{LendFault, Name};
use inc_layout::LayoutFault;
use inc_recover::MountFault;
use std::alloc::{AllocError, Global};

/// Why names aren't mounted.
#[derive(Drop)]
pub enum MountRefusal {
    /// No file stands under this name.
    Missing { name: Name },
    /// This file isn't good. It is one of the names, or the original of one that is too long to be mounted.
    Bad { name: Name, verdict: Verdict },
    /// The shelf or a disk failed.
    Fault,
    OutOfMemory,
}

impl From<AllocError> for MountRefusal {
    ghost from_gives = { λ _ refusal. refusal ≡ out_of_memory };

    fn from(_: AllocError) -> Self {
        MountRefusal::OutOfMemory
    }
}

/// A shelf that lends nothing refuses no file.
pub fn refusal_by_lend(fault: LendFault) -> MountRefusal
    ensures value { result ≡ refusal_by_lend fault }
{
    match fault {
        LendFault::Failed => MountRefusal::Fault,
        LendFault::OutOfMemory => MountRefusal::OutOfMemory,
    }
}

/// A file that isn't mounted is refused for what its layout says, unless the device failed or memory.
pub fn refusal_by_mount(alloc: Global, name: &Name, fault: MountFault) -> MountRefusal
    requires { IsOwnMountFault fault }
    ensures only { (wanted : Result Opened LayoutFault) (found : Opened) → wanted ≡ Ok found → GivesMountFault fault wanted → IsNoVerdict result }
    ensures own { IsOwnRefusal result }
    ensures failed { (before now : ℕ) → FaultCause before now fault → result ≡ refusal_fault → Rose before now }
    ensures quiet { (before now : ℕ) → FaultCause before now fault → result ≢ refusal_fault → now ≡ before }
{
    match fault {
        MountFault::Layout(fault) => refusal_by_layout(alloc, name, fault),
        MountFault::DiskFault => MountRefusal::Fault,
        MountFault::OutOfMemory => MountRefusal::OutOfMemory,
    }
}

fn refusal_by_layout(alloc: Global, name: &Name, fault: LayoutFault) -> MountRefusal
    requires { IsOwnMountFault (Layout fault) }
    ensures only { (wanted : Result Opened LayoutFault) (found : Opened) → wanted ≡ Ok found → GivesLayout fault wanted → IsNoVerdict result }
    ensures own { IsOwnRefusal result }
    ensures failed { (before now : ℕ) → LayoutCause before now fault → result ≡ refusal_fault → Rose before now }
    ensures quiet { (before now : ℕ) → LayoutCause before now fault → result ≢ refusal_fault → now ≡ before }
{
    match fault {
        LayoutFault::ReadFault => MountRefusal::Fault,
        _ => bad_file(alloc, name, Verdict::Refused(fault)),
    }
}

/// The file under the name isn't good.
fn bad_file(alloc: Global, name: &Name, verdict: Verdict) -> MountRefusal
    requires { IsRefusing verdict }
    ensures own { IsOwnRefusal result }
    ensures no_fault { result ≢ refusal_fault }
{
    match name.copy(alloc) {
        Ok(name) => MountRefusal::Bad { name, verdict },
        Err(_) => MountRefusal::OutOfMemory,
    }
}

/// No file stands under the name.
pub fn missing_file(alloc: Global, name: &Name) -> MountRefusal
    ensures own { IsOwnRefusal result }
    ensures no_fault { result ≢ refusal_fault }
{
    match name.copy(alloc) {
        Ok(name) => MountRefusal::Missing { name },
        Err(_) => MountRefusal::OutOfMemory,
    }
}
