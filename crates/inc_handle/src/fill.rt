// Fills of one file beside its readers and other fills.
mod checks;
mod filler;
mod group;
mod outcomes;
mod pending;
mod pieces;
mod store;
mod window;

pub use filler::Filler;
pub use outcomes::OutcomeList;
pub use pending::TakenReads;
