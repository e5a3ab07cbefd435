// What stands under a lock: one event after another, and the history that they leave.
ghost use Rattle.std.specs.Prelude.{◌≡◌, ℕ, List};
ghost use Rattle.inc_model.specs.histories.Machines.{Grows};
ghost use Rattle.inc_model.specs.declared.words.reply.Entry.{Entry};

/// One file's state with its events. Whoever holds it alone takes the steps; who keeps it behind a lock keeps one history.
pub trait Machine {
    type Event;

    type Answer;
    /// What no step changes, as plain data. No value of it is made.
    type Footing;

    ghost history: { Self → List Entry };

    ghost footing: { Self → Self.Footing };

    /// Whether the event may come from this seat.
    ghost takes: { ℕ → Self.Event → Type 0 };

    ghost steps: { Self → ℕ → Self.Event → Self.Answer → Self → Type 0 };

    /// Takes one step for the seat of this number.
    fn step(&mut self, who: u32, event: Self::Event) -> Self::Answer
        requires { takes who event }
        ensures { steps self.old who event result self.new };

    /// A step adds at most one entry, at the end, of the seat that asked.
    ghost grows: { (old : Self) (who : ℕ) (event : Self.Event) (answer : Self.Answer) (new : Self) → steps old who event answer new → Grows who (history old) (history new) };

    ghost stays: { (old : Self) (who : ℕ) (event : Self.Event) (answer : Self.Answer) (new : Self) → steps old who event answer new → footing new ≡ footing old };
}
