ghost use Rattle.std.specs.Prelude.{◌<◌, ◌≤◌, ℕ, List, length, Option, IfOk, OnOk};
ghost use Rattle.inc_io.specs.Causes.{HasCause};
ghost use Rattle.inc_io.specs.Outside.{Takes};
ghost use Rattle.inc_io.specs.Writing.{Appends, AppendsFront};

use crate::Failed;

/// Where output goes.
pub trait Sink {
    /// All that it has taken, where it tells that.
    ghost written: { Self → Option (List ℕ) };

    /// How often a call has failed.
    ghost faults: { Self → ℕ };

    /// Takes bytes from the front of the piece, at least one of a piece that isn't empty, and says how many.
    fn write(&mut self, piece: &[u8]) -> Result<usize, Failed>
        ensures told { Takes (written self.old) (written self.new) piece.now result }
        ensures within { IfOk result (λ count. count ≤ length piece.now) }
        ensures some { IfOk result (λ count. 0 < length piece.now → 0 < count) }
        ensures cause { HasCause (faults self.old) (faults self.new) result };
}

/// Writes a whole text, piece by piece.
pub fn write_all<O: Sink>(out: &mut O, text: &[u8]) -> Result<(), Failed>
    ensures whole { OnOk result (Appends (O.written out.old) (O.written out.new) text.now) }
    ensures front { AppendsFront (O.written out.old) (O.written out.new) text.now }
    ensures cause { HasCause (O.faults out.old) (O.faults out.new) result }
{
    let mut rest = text;
    while !rest.is_empty() {
        let count = out.write(rest)?;
        let (_, after) = rest.split_at(count);
        rest = after;
    }
    Ok(())
}
