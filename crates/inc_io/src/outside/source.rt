ghost use Rattle.std.specs.Prelude.{◌≡◌, ◌<◌, ◌≤◌, ◌||◌, ◌++◌, ℕ, Bool, List, length, take, drop, Option, IfSome, IfOk};
ghost use Rattle.inc_io.specs.Causes.{HasCause};
ghost use Rattle.inc_io.specs.Outside.{Gives, is_end};

use crate::Failed;

/// Where input comes from.
pub trait Source {
    /// All that it still gives, where it tells that.
    ghost left: { Self → Option (List ℕ) };

    /// Whether it has answered that its input is at an end. Every source tells that.
    ghost ended: { Self → Bool };

    /// How often a call has failed.
    ghost faults: { Self → ℕ };

    /// Fills the front of the room with the next bytes, at least one of a room that isn't empty while there are any, and says how many.
    /// For such a room 0 is the end of the input. After a failure the room may hold any bytes.
    fn read(&mut self, room: &mut [u8]) -> Result<usize, Failed>
        ensures within { IfOk result (λ count. count ≤ length room.old) }
        ensures left { Gives (left self.old) (left self.new) result }
        ensures enough { IfSome (left self.old) (λ bytes. IfOk result (λ count. count ≤ length bytes)) }
        ensures some { IfSome (left self.old) (λ bytes. IfOk result (λ count. 0 < length room.old → 0 < length bytes → 0 < count)) }
        ensures bytes { IfSome (left self.old) (λ bytes. IfOk result (λ count. room.new ≡ take count bytes ++ drop count room.old)) }
        ensures ended { ended self.new ≡ (ended self.old || is_end (length room.old) result) }
        ensures cause { HasCause (faults self.old) (faults self.new) result };
}
