//! A lock that serves one seat after another, round a machine whose steps leave one history.
//!
//! A seat that wants a turn takes a ticket, waits until it is served, steps the machine and serves the next ticket. Each seat knows the
//! turns that it has seen, and these lists are beginnings of one list: the history that the machine has once the lock is closed. Nothing
//! is promised of when a seat is served.
#![tactic(auto)]

// A lock, its seats and what they know.
mod seat;
mod table;
mod view;

// The rule of its table, and what each step on it tells.
mod rules;

// New locks, turns and closed locks.
mod closing;
mod laws;
mod lock;
mod opening;
#[cfg(test)]
mod tests;

pub use laws::{closed_locks_keep_own, seats_stay, turns_add_own};
pub use opening::OutOfMemory;
pub use seat::Seat;
pub use table::TurnLock;
pub use view::{PastSeat, View};
