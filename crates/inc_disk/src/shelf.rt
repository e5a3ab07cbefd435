ghost use Rattle.std.specs.Prelude.{◌≡◌, ◌++◌, [], ◌∷◌, ℕ, Option, IfSome, IfOk, option_map, is_some, not};
ghost use Rattle.std.specs.Option.{option_to_list};
ghost use Rattle.inc_io.specs.Causes.{HasCauseAt, Joins};
ghost use Rattle.inc_io.specs.Names.{without};
ghost use Rattle.inc_io.specs.Outside.{IsIn, IsOut, LendsName};
ghost use Rattle.inc_io.specs.declared.failed.LendFault.TheVariants.{Failed as lend_failed};
ghost use Rattle.inc_disk.specs.Disk.{Now, settled};
ghost use Rattle.inc_disk.specs.Log.{Log, Creates, KeepsUnlessLent, contents_of, entries_of, newest_of};

use crate::Disk;
use inc_io::{LendFault, Name, ReadShelf};

/// A folder of files that are lent as disks and given back. No call changes another name or its images.
pub trait Shelf: ReadShelf {
    type Disk: Disk;

    /// The states of all files that the shelf has known, newest first, where it tells them. How many they are is its moment.
    ghost log: { Self.Kept → Option Log };

    /// Lends the disk of this name in its newest state, what isn't synced of it included, with the count of faults 0. There is none exactly where
    /// the name isn't there.
    fn open_disk(&mut self, name: &Name) -> Result<Option<Self::Disk>, LendFault>
        requires { IsIn name.now (Self.out self.old) }
        ensures found { IfSome (log (Self.kept self.old)) (λ entries. IfOk result (λ lent. is_some lent ≡ is_some (newest_of name.now entries))) }
        ensures states { IfSome (log (Self.kept self.old)) (λ entries. IfOk result (λ lent. IfSome lent (λ disk.
            Self.Disk.states (Self.Disk.kept disk) ≡ option_to_list (newest_of name.now entries)))) }
        ensures fresh { IfOk result (λ lent. IfSome lent (λ disk. Self.Disk.faults disk ≡ 0)) }
        ensures lends { LendsName name.now (Self.out self.old) (Self.out self.new) result }
        ensures kept { Self.kept self.new ≡ Self.kept self.old }
        ensures cause { HasCauseAt lend_failed (Self.faults self.old) (Self.faults self.new) result };

    /// Lends a new, empty file. There is none exactly where the name is there already. The file comes to stand whole or not at all.
    fn create_disk(&mut self, name: &Name) -> Result<Option<Self::Disk>, LendFault>
        requires { IsIn name.now (Self.out self.old) }
        ensures found { IfSome (log (Self.kept self.old)) (λ entries. IfOk result (λ lent. is_some lent ≡ not (is_some (newest_of name.now entries)))) }
        ensures states { IfSome (log (Self.kept self.old)) (λ entries. IfOk result (λ lent. IfSome lent (λ disk.
            Self.Disk.states (Self.Disk.kept disk) ≡ settled [] ∷ []))) }
        // The disk is empty also where the shelf doesn't tell its log.
        ensures empty { IfOk result (λ lent. IfSome lent (λ disk. Now (Self.Disk.states (Self.Disk.kept disk)) (λ state. state ≡ settled []))) }
        ensures created { Creates name.now (log (Self.kept self.old)) (log (Self.kept self.new)) result }
        ensures fresh { IfOk result (λ lent. IfSome lent (λ disk. Self.Disk.faults disk ≡ 0)) }
        ensures lends { LendsName name.now (Self.out self.old) (Self.out self.new) result }
        ensures kept { KeepsUnlessLent (Self.kept self.old) (Self.kept self.new) result }
        ensures cause { HasCauseAt lend_failed (Self.faults self.old) (Self.faults self.new) result };

    /// Takes a lent disk back, with all the states that it has been in.
    fn close_disk(&mut self, name: &Name, disk: Self::Disk)
        requires { IsOut name.now (Self.out self.old) }
        ensures returned { Self.out self.new ≡ option_map (without name.now) (Self.out self.old) }
        ensures logged { log (Self.kept self.new) ≡ option_map (λ entries. entries_of name.now (Self.Disk.states (Self.Disk.kept disk)) ++ entries) (log (Self.kept self.old)) }
        ensures cause { Joins (Self.faults self.old) (Self.Disk.faults disk) (Self.faults self.new) };

    /// What stands under a name is what its newest state reads as.
    ghost contents_now: { (kept : Self.Kept) → Self.contents kept ≡ option_map contents_of (log kept) };
}
