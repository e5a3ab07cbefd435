// The lists of a state.
pub mod claims;
pub mod flight;
pub mod index_sets;
pub mod keyed;
