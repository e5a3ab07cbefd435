//! What several threads rest at, are held by and tell the time from, and the forms of it for tests.

mod bell;
mod clock;
mod gate;
mod memory_bell;
mod open_gate;
mod step_clock;

pub use bell::Bell;
pub use clock::Clock;
pub use gate::Gate;
pub use memory_bell::MemBell;
pub use open_gate::OpenGate;
pub use step_clock::StepClock;
