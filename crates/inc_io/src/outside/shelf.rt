ghost use Rattle.std.specs.Prelude.{◌≡◌, ℕ, List, Option, IfSome, IfOk, option_map, is_some};
ghost use Rattle.std.specs.FinMap.{get, keys};
ghost use Rattle.inc_io.specs.Causes.{HasCauseAt, Joins};
ghost use Rattle.inc_io.specs.Contents.{Contents};
ghost use Rattle.inc_io.specs.Names.{without};
ghost use Rattle.inc_io.specs.Outside.{IsIn, IsOut, LendsName};
ghost use Rattle.inc_io.specs.declared.failed.LendFault.TheVariants.{Failed as lend_failed};

use crate::{Backing, LendFault, Name, NameList};

/// A folder of files that are lent by name and given back.
pub trait ReadShelf {
    type File: Backing;

    /// What no call of this trait changes: plain data. It alone tells what stands on the shelf.
    type Kept;

    ghost kept: { Self → Self.Kept };

    /// The files by name, where the shelf tells them. A file that is lent still stands here.
    ghost contents: { Self.Kept → Option Contents };

    /// The names that are lent, where the shelf tells them.
    ghost out: { Self → Option (List (List ℕ)) };

    /// How often a call has failed, the calls of files that came back among them.
    ghost faults: { Self → ℕ };

    /// All names, in byte order.
    fn names(&mut self) -> Result<NameList, LendFault>
        ensures told { IfSome (contents (kept self.old)) (λ files. IfOk result (λ names. names ≡ keys files)) }
        ensures kept { kept self.new ≡ kept self.old }
        ensures same_out { out self.new ≡ out self.old }
        ensures cause { HasCauseAt lend_failed (faults self.old) (faults self.new) result };

    /// Lends the file of this name, with the count of faults 0. There is none exactly where the name isn't there.
    fn open_read(&mut self, name: &Name) -> Result<Option<Self::File>, LendFault>
        requires { IsIn name.now (out self.old) }
        ensures found { IfSome (contents (kept self.old)) (λ files. IfOk result (λ lent. is_some lent ≡ is_some (get files name.now))) }
        ensures reads { IfSome (contents (kept self.old)) (λ files. IfOk result (λ lent. IfSome lent (λ file.
            Self.File.reads (Self.File.kept file) ≡ get files name.now))) }
        ensures fresh { IfOk result (λ lent. IfSome lent (λ file. Self.File.faults file ≡ 0)) }
        ensures lends { LendsName name.now (out self.old) (out self.new) result }
        ensures kept { kept self.new ≡ kept self.old }
        ensures cause { HasCauseAt lend_failed (faults self.old) (faults self.new) result };

    /// Takes a lent file back.
    fn close_read(&mut self, name: &Name, file: Self::File)
        requires { IsOut name.now (out self.old) }
        ensures returned { out self.new ≡ option_map (without name.now) (out self.old) }
        ensures kept { kept self.new ≡ kept self.old }
        ensures cause { Joins (faults self.old) (Self.File.faults file) (faults self.new) };
}
